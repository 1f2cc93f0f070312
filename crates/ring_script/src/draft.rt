//! Where each kind of line may stand, and what the lines so far say.
ghost use Rattle.std.specs.Prelude.{◌≡◌, ◌≤◌, if◌then◌else◌, IfOk, OnOk};
ghost use Rattle.gl_plain.specs.Regions.{is_inside};
ghost use Rattle.gl_base.specs.declared.limits.TheConstants.{TOTAL_LIMIT};
ghost use Rattle.cb_shm.specs.Hostile.{listed_size, script_sizes};
ghost use Rattle.ring_script.specs.Limits.{listed_bytes, total_bytes, IsWithinLimits};
ghost use Rattle.ring_script.specs.Rules.{before_line, draft_after, empty_draft, ends_list, ends_list_of_link, entries_of, is_first, is_side, script_of, with_common, with_opening, with_put, with_region, with_ring, with_surface, with_timed, IsSound};

use crate::line::Line;
use cb_shm::Script;
use gl_base::limits::{
    DATA_LIMIT, DEFAULT_ENTRIES, DEFAULT_SURFACE, LAST_REGION, LEAST_ENTRIES, MOST_ENTRIES,
    SIDE_LIMIT, TOTAL_LIMIT,
};
use gl_plain::{
    AnswersDraft, CommonLine, Patch, PatchList, Region, RegionList, Timed, TimedList, Words,
};
use std::alloc::{AllocError, Global};

/// What the lines so far have said.
#[derive(Drop)]
pub struct Draft {
    pub surface: Option<(u32, u32)>,
    pub ring: Option<u32>,
    pub regions: RegionList,
    pub opening: PatchList,
    pub timed: TimedList,
    pub puts: Words,
    pub answers: AnswersDraft,
}

/// The size of the region of this number.
fn listed_size(regions: &[Region], id: u32) -> Option<u32>
    ensures { result ≡ listed_size regions.now id }
{
    for region in regions {
        if region.id == id {
            return Some(region.size);
        }
    }
    None
}

/// The sizes of the regions together.
fn listed_bytes(regions: &[Region]) -> u64
    requires { listed_bytes regions.now ≤ TOTAL_LIMIT }
    ensures { result ≡ listed_bytes regions.now }
{
    let mut bytes = 0u64;
    for region in regions {
        bytes += u64::from(region.size);
    }
    bytes
}

/// Whether a default framebuffer may have so many columns or rows.
fn is_side(pixels: u32) -> bool
    ensures { result ≡ is_side pixels }
{
    pixels >= 1 && pixels <= SIDE_LIMIT
}

/// Whether a line of answers ends the list of the last link.
fn ends_list_of_link(line: &CommonLine) -> bool
    ensures { result ≡ ends_list_of_link line.now }
{
    !matches!(line, CommonLine::OfAttribute(_) | CommonLine::OfUniform(_))
}

/// Whether a line ends the list of the last link.
fn ends_list(line: &Line) -> bool
    ensures { result ≡ ends_list line.now }
{
    match line {
        Line::PassedOver => false,
        Line::Common(line) => ends_list_of_link(line),
        _ => true,
    }
}

impl Draft {
    /// No line has said anything.
    pub fn new(alloc: Global) -> Draft
        ensures { result ≡ empty_draft }
    {
        Draft {
            surface: None,
            ring: None,
            regions: RegionList::new(alloc),
            opening: PatchList::new(alloc),
            timed: TimedList::new(alloc),
            puts: Words::new(alloc),
            answers: AnswersDraft::new(alloc),
        }
    }

    fn entries(&self) -> u32
        ensures { result ≡ entries_of self.now }
    {
        self.ring.unwrap_or(DEFAULT_ENTRIES)
    }

    fn is_first(&self) -> bool
        ensures { result ≡ is_first self.now }
    {
        self.ring.is_none()
            && self.regions.is_empty()
            && self.opening.is_empty()
            && self.timed.is_empty()
            && self.puts.is_empty()
    }

    /// The size in bytes of a region that is there.
    fn size(&self, region: u32) -> Option<u64>
        ensures { result ≡ script_sizes (script_of self.now) region }
    {
        if region == 0 {
            return Some(4 * u64::from(self.entries()));
        }
        let size = listed_size(self.regions.as_slice(), region)?;
        Some(u64::from(size))
    }

    /// Whether a range lies in a region that is there.
    fn contains(&self, region: u32, offset: u32, count: usize) -> bool
        ensures { result ≡ is_inside (script_sizes (script_of self.now)) region offset count }
    {
        match self.size(region) {
            Some(size) => u64::from(offset) <= size && count as u64 <= size - u64::from(offset),
            None => false,
        }
    }

    /// How many bytes the ring and the regions have together.
    fn total_bytes(&self) -> u64
        requires { IsWithinLimits (script_of self.now) }
        ensures { result ≡ total_bytes (script_of self.now) }
    {
        4 * u64::from(self.entries()) + listed_bytes(self.regions.as_slice())
    }

    #[tactic(auto, unfolding(crate::specs::Rules::with_surface))]
    fn take_surface(&mut self, width: u32, height: u32) -> bool
        ensures { with_surface self.old width height ≡ (if result then Some self.new else None) }
    {
        let is_taken = self.surface.is_none() && is_side(width) && is_side(height);
        if is_taken {
            self.surface = Some((width, height));
        }
        is_taken
    }

    #[tactic(auto, unfolding(crate::specs::Rules::with_ring))]
    fn take_ring(&mut self, entries: u32) -> bool
        ensures { with_ring self.old entries ≡ (if result then Some self.new else None) }
    {
        let is_taken = self.is_first() && entries >= LEAST_ENTRIES && entries <= MOST_ENTRIES;
        if is_taken {
            self.ring = Some(entries);
        }
        is_taken
    }

    #[tactic(auto, unfolding(crate::specs::Rules::with_region))]
    fn take_region(&mut self, region: Region) -> Result<bool, AllocError>
        requires { IsSound self.old }
        ensures { IfOk result (λ taken. with_region self.old region ≡ (if taken then Some self.new else None)) }
    {
        let has_number = region.id >= 1 && region.id <= LAST_REGION;
        let is_new = listed_size(self.regions.as_slice(), region.id).is_none();
        let total = self.total_bytes() + u64::from(region.size);
        let has_room = region.size <= DATA_LIMIT && total <= TOTAL_LIMIT;
        if has_number && is_new && has_room {
            self.regions.push(region)?;
            Ok(true)
        } else {
            Ok(false)
        }
    }

    #[tactic(auto, unfolding(crate::specs::Rules::with_opening))]
    fn take_opening(&mut self, patch: Patch) -> Result<bool, AllocError>
        ensures { IfOk result (λ taken. with_opening self.old patch ≡ (if taken then Some self.new else None)) }
    {
        if self.contains(patch.region, patch.offset, patch.bytes.len()) {
            self.opening.push(patch)?;
            Ok(true)
        } else {
            Ok(false)
        }
    }

    #[tactic(auto, unfolding(crate::specs::Rules::with_timed))]
    fn take_timed(&mut self, timed: Timed) -> Result<bool, AllocError>
        ensures { IfOk result (λ taken. with_timed self.old timed ≡ (if taken then Some self.new else None)) }
    {
        if self.contains(timed.region, timed.offset, timed.bytes.len()) {
            self.timed.push(timed)?;
            Ok(true)
        } else {
            Ok(false)
        }
    }

    fn take_put(&mut self, put: u32) -> Result<bool, AllocError>
        ensures { IfOk result (λ taken. Some (with_put self.old put) ≡ (if taken then Some self.new else None)) }
    {
        self.puts.push(put)?;
        Ok(true)
    }

    #[tactic(auto, unfolding(crate::specs::Rules::with_common, crate::specs::Rules::with_surface, crate::specs::Rules::with_ring))]
    fn take_common(&mut self, alloc: Global, line: CommonLine) -> Result<bool, AllocError>
        ensures { IfOk result (λ taken. with_common self.old line ≡ (if taken then Some self.new else None)) }
    {
        match line {
            CommonLine::Surface { width, height } => Ok(self.take_surface(width, height)),
            CommonLine::Ring(entries) => Ok(self.take_ring(entries)),
            CommonLine::Oom(question) => self.answers.take_oom(question),
            CommonLine::Lost(call) => Ok(self.answers.take_lost(call)),
            CommonLine::Compile(verdict) => self.answers.take_compile(verdict),
            CommonLine::Link(verdict) => self.answers.take_link(alloc, verdict),
            CommonLine::OfAttribute(attribute) => self.answers.take_attribute(attribute),
            CommonLine::OfUniform(uniform) => self.answers.take_uniform(uniform),
            CommonLine::Validate(verdict) => self.answers.take_validate(verdict),
            CommonLine::Pixels(bytes) => {
                self.answers.take_pixels(bytes)?;
                Ok(true)
            }
        }
    }

    /// Ends the list of the last link, where a line ends it.
    fn close_before(&mut self, line: &Line) -> Result<(), AllocError>
        ensures ok { OnOk result (self.new ≡ before_line self.old line.now) }
    {
        if ends_list(line) {
            self.answers.close()?;
        }
        Ok(())
    }

    /// Takes a line, where it may stand after those before it. The answer is whether it may.
    #[tactic(auto, using(crate::proofs::Soundness::sound_before), unfolding(crate::specs::Rules::draft_after, crate::specs::Rules::with_line))]
    pub fn take(&mut self, alloc: Global, line: Line) -> Result<bool, AllocError>
        requires { IsSound self.old }
        ensures { IfOk result (λ taken. draft_after self.old line ≡ (if taken then Some self.new else None)) }
    {
        self.close_before(&line)?;
        match line {
            Line::PassedOver => Ok(true),
            Line::Region(region) => self.take_region(region),
            Line::Opening(patch) => self.take_opening(patch),
            Line::At(timed) => self.take_timed(timed),
            Line::Put(put) => self.take_put(put),
            Line::Common(line) => self.take_common(alloc, line),
        }
    }

    /// The script that the lines say.
    pub fn into_script(self) -> Result<Script, AllocError>
        ensures { IfOk result (λ script. script ≡ script_of self) }
    {
        let entries = self.entries();
        let Draft {
            surface,
            ring: _,
            regions,
            opening,
            timed,
            puts,
            answers,
        } = self;
        let answers = answers.into_answers()?;
        Ok(Script {
            surface: surface.unwrap_or(DEFAULT_SURFACE),
            entries,
            regions,
            opening,
            timed,
            puts,
            answers,
        })
    }
}
