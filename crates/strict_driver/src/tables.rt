//! The state tables that a driver keeps. Of shaders and programs, of the fixed state and of the contents of images it keeps nothing, since no
//! answer depends on them.
ghost use Rattle.std.specs.Prelude.{ℤ, List, ◌≡◌, [], ◌∷◌, ◌++◌, IsSome, None, OnOk, false};
ghost use Rattle.gl_plain.specs.declared.driver_calls.Answer.TheVariants as answers;
ghost use Rattle.gl_plain.specs.declared.driver_calls.DriverCall.TheVariants.{Object};
ghost use Rattle.gl_plain.specs.declared.driver_calls.DriverEntry.{DriverEntry};
ghost use Rattle.gl_plain.specs.driver.Allowed.{IsAllowed, IsObjectAllowed};
ghost use Rattle.gl_plain.specs.driver.Answers.{IsAnswer, IsNewName, IsObjectAnswer};
ghost use Rattle.gl_plain.specs.driver.Effect.{after_buffer_data, after_drawing, after_gen, after_image, after_object, after_storage, after_tex_image, driver_after};
ghost use Rattle.gl_plain.specs.declared.driver_calls.ObjectDriver.TheVariants.{BufferSubData, DeleteBuffer, DeleteTexture, DeleteRenderbuffer, FramebufferTexture, FramebufferRenderbuffer, VertexAttribPointer};
ghost use Rattle.gl_plain.specs.subjects.Attributes.{vertex_attrib_pointer_refusal};
ghost use Rattle.gl_plain.specs.subjects.Attributes as subject;
ghost use Rattle.gl_plain.specs.subjects.Buffers.{IsBufferSubDataAllowed, bound};
ghost use Rattle.gl_base.specs.declared.target_enums.TheConstants.{RENDERBUFFER};
ghost use Rattle.gl_plain.specs.subjects.Copies.{copy_image, copy_words};
ghost use Rattle.gl_plain.specs.subjects.Images.{image_words, opening_contents, view_of};
ghost use Rattle.gl_plain.specs.subjects.Targets.{renderbuffer_storage_refusal, storage_view};
ghost use Rattle.gl_plain.specs.subjects.Names.{IsLive};
ghost use Rattle.gl_plain.specs.Spaces as space;
ghost use Rattle.gl_plain.specs.State.{DriverTables, opening_tables};
ghost use Rattle.gl_plain.specs.Words.{is_negative};
ghost use Rattle.gl_plain.specs.Words as words;
ghost use Rattle.strict_driver.specs.KeptBuffers.{buffers_of, bytes_at};
ghost use Rattle.strict_driver.specs.FitImages.{IsFit, IsFitImage};
ghost use Rattle.strict_driver.specs.OnTargets.{IsOnTarget};
ghost use Rattle.strict_driver.specs.TableState.{Follow, left_by, state_of};

use crate::buffers::Buffers;
use crate::targets::{Framebuffers, Renderbuffers};
use crate::textures::Textures;
use gl_base::GlEnum;
use gl_base::enums::UNSIGNED_BYTE;
use gl_base::target_enums::NONE;
use gl_plain::{
    Answer, ArraySpec, Attached, DrawDriver, DriverCall, DriverEntry, ImageDriver, LevelView,
    ObjectDriver, VertexAttributes,
};
use std::alloc::{AllocError, Global};

/// The state tables that a driver keeps: the sides of the default framebuffer, the buffers, the textures, the renderbuffers, the framebuffers,
/// and the vertex attributes.
#[derive(Drop)]
pub struct Tables {
    surface: (u32, u32),
    buffers: Buffers,
    textures: Textures,
    renderbuffers: Renderbuffers,
    framebuffers: Framebuffers,
    attributes: VertexAttributes,
}

/// A number that is not negative.
pub fn natural(number: i32) -> u32
    requires { is_negative number ≡ false }
    ensures { result ≡ words.natural number }
{
    number as u32
}

impl Tables {
    /// The opening tables. They take no memory.
    pub fn new(alloc: Global, surface: (u32, u32)) -> Tables
        ensures state { (js : List DriverEntry) → state_of (opening_tables surface) js result ≡ opening_tables surface }
        ensures surface { result.surface ≡ surface }
    {
        Tables {
            surface,
            buffers: Buffers::new(alloc),
            textures: Textures::new(alloc),
            renderbuffers: Renderbuffers::new(alloc),
            framebuffers: Framebuffers::new(alloc),
            attributes: VertexAttributes::new(),
        }
    }

    /// The array that a call names: it lies in the buffer that ARRAY_BUFFER binds.
    fn array_of(
        &self,
        size: i32,
        kind: GlEnum,
        normalized: bool,
        stride: i32,
        offset: u32,
    ) -> ArraySpec
        requires size { is_negative size ≡ false }
        requires stride { is_negative stride ≡ false }
        ensures { result ≡ subject.array_of (buffers_of [] self.now.buffers) size kind normalized stride offset }
    {
        let number = self.buffers.array();
        let object = if number == 0 { None } else { Some(number) };
        ArraySpec {
            object,
            size: natural(size),
            kind,
            normalized,
            stride: natural(stride),
            offset,
        }
    }

    /// Changes the tables as a call with its answer does, which is entered behind this journal. Without memory for it they are used no more.
    pub fn apply(
        &mut self,
        journal: &[DriverEntry],
        call: &DriverCall,
        answer: &Answer,
    ) -> Result<(), AllocError>
        requires allowed { IsAllowed (left_by self.old.surface journal.now) call.now }
        requires answered { IsAnswer (left_by self.old.surface journal.now) call.now answer.now }
        requires follow { Follow (left_by self.old.surface journal.now).tables journal.now self.old }
        ensures ok { OnOk result (Follow (driver_after (left_by self.old.surface journal.now) call.now answer.now).tables (journal.now ++ record { call = call.now; answer = answer.now } ∷ []) self.new) }
        ensures surface { self.new.surface ≡ self.old.surface }
    {
        match call {
            DriverCall::Object(call) => self.apply_object(journal, call, answer),
            DriverCall::Image(call) => self.apply_image(call, answer),
            DriverCall::Program(_) => Ok(()),
            DriverCall::Draw(call) => {
                self.apply_draw(call);
                Ok(())
            }
        }
    }

    /// Changes the tables as a call on objects does.
    fn apply_object(
        &mut self,
        journal: &[DriverEntry],
        call: &ObjectDriver,
        answer: &Answer,
    ) -> Result<(), AllocError>
        requires allowed { IsObjectAllowed (state_of (opening_tables self.old.surface) journal.now self.old) call.now }
        requires answered { IsObjectAnswer (record { tables = state_of (opening_tables self.old.surface) journal.now self.old; contents = opening_contents }) call.now answer.now }
        requires settled { (more : List DriverEntry) → buffers_of (journal.now ++ more) self.old.buffers ≡ buffers_of journal.now self.old.buffers }
        ensures ok { OnOk result ((t : DriverTables) (more : List DriverEntry) → let js = journal.now ++ record { call = Object call.now; answer = answer.now } ∷ more in state_of t js self.new ≡ after_object (state_of t js self.old) call.now answer.now) }
        ensures surface { self.new.surface ≡ self.old.surface }
    {
        match call {
            ObjectDriver::GenBuffer => self.give(answer)?,
            ObjectDriver::BindBuffer { target, name } => self.buffers.bind(*target, *name)?,
            ObjectDriver::BufferData { target, usage, .. } => {
                self.store(*target, journal.len(), *usage, answer);
            }
            ObjectDriver::BufferSubData {
                target,
                offset,
                bytes,
            } => self.change(journal, *target, *offset, bytes.as_slice())?,
            ObjectDriver::DeleteBuffer { name } => self.delete(*name),
            ObjectDriver::GenTexture => self.give_texture(answer)?,
            ObjectDriver::BindTexture { target, name } => self.textures.bind(*target, *name)?,
            ObjectDriver::DeleteTexture { name } => self.delete_texture(*name),
            ObjectDriver::GenRenderbuffer
            | ObjectDriver::BindRenderbuffer { .. }
            | ObjectDriver::DeleteRenderbuffer { .. }
            | ObjectDriver::GenFramebuffer
            | ObjectDriver::BindFramebuffer { .. }
            | ObjectDriver::DeleteFramebuffer { .. }
            | ObjectDriver::FramebufferTexture { .. }
            | ObjectDriver::FramebufferRenderbuffer { .. } => self.apply_target(call, answer)?,
            ObjectDriver::VertexAttrib4 { index, values } => {
                self.attributes.set_constant(*index, *values);
            }
            ObjectDriver::VertexAttribPointer {
                index,
                size,
                kind,
                normalized,
                stride,
                offset,
            } => self.point(*index, *size, *kind, *normalized, *stride, *offset),
            ObjectDriver::SetArray { index, on } => self.attributes.set_enabled(*index, *on),
        }
        Ok(())
    }

    /// Changes the tables as a call on renderbuffers or framebuffers does.
    fn apply_target(&mut self, call: &ObjectDriver, answer: &Answer) -> Result<(), AllocError>
        requires target { IsOnTarget call.now }
        requires allowed { IsObjectAllowed (state_of (opening_tables self.old.surface) [] self.old) call.now }
        requires answered { IsObjectAnswer (record { tables = state_of (opening_tables self.old.surface) [] self.old; contents = opening_contents }) call.now answer.now }
        ensures ok { OnOk result ((t : DriverTables) (js : List DriverEntry) → state_of t js self.new ≡ after_object (state_of t js self.old) call.now answer.now) }
        ensures surface { self.new.surface ≡ self.old.surface }
    {
        match call {
            ObjectDriver::GenRenderbuffer => self.give_renderbuffer(answer)?,
            ObjectDriver::BindRenderbuffer { name } => self.renderbuffers.bind(*name)?,
            ObjectDriver::DeleteRenderbuffer { name } => self.delete_renderbuffer(*name),
            ObjectDriver::GenFramebuffer => self.give_framebuffer(answer)?,
            ObjectDriver::BindFramebuffer { name } => self.framebuffers.bind(*name)?,
            ObjectDriver::DeleteFramebuffer { name } => self.framebuffers.delete(*name),
            ObjectDriver::FramebufferTexture {
                attachment,
                textarget,
                name,
            } => self.attach_texture(*attachment, *textarget, *name),
            ObjectDriver::FramebufferRenderbuffer { attachment, name } => {
                self.attach_renderbuffer(*attachment, *name);
            }
            _ => {}
        }
        Ok(())
    }

    /// Changes the tables as a call on images does.
    fn apply_image(&mut self, call: &ImageDriver, answer: &Answer) -> Result<(), AllocError>
        requires { IsFit self.old.renderbuffers.tables call.now }
        ensures ok { OnOk result ((t : DriverTables) (js : List DriverEntry) → state_of t js self.new ≡ after_image (state_of t js self.old) call.now answer.now) }
        ensures surface { self.new.surface ≡ self.old.surface }
    {
        match call {
            ImageDriver::TexImage {
                target,
                level,
                format,
                kind,
                width,
                height,
                ..
            } => self.put_image(*target, *level, *format, *kind, *width, *height, answer),
            ImageDriver::CopyTexImage {
                target,
                level,
                format,
                width,
                height,
                ..
            } => self.copy_image(*target, *level, *format, *width, *height, answer),
            ImageDriver::TexParameter {
                target,
                pname,
                value,
            } => self.textures.set_parameter(*target, *pname, *value),
            ImageDriver::GenerateMipmap { target } => self.textures.put_halves(*target),
            ImageDriver::RenderbufferStorage {
                format,
                width,
                height,
            } => {
                self.put_storage(*format, *width, *height, answer);
                Ok(())
            }
            ImageDriver::TexSubImage { .. }
            | ImageDriver::ZeroLevel { .. }
            | ImageDriver::CopyTexSubImage { .. }
            | ImageDriver::ZeroRenderbuffer { .. }
            | ImageDriver::ReadPixels { .. } => Ok(()),
        }
    }

    /// Changes the tables as a call on the active unit or the fixed state does, or one that clears or draws.
    fn apply_draw(&mut self, call: &DrawDriver)
        ensures state { (t : DriverTables) (js : List DriverEntry) → state_of (after_drawing t call.now) js self.new ≡ after_drawing (state_of t js self.old) call.now }
        ensures surface { self.new.surface ≡ self.old.surface }
    {
        match call {
            DrawDriver::ActiveTexture { unit } => self.textures.set_active(*unit),
            DrawDriver::SetRaster { .. }
            | DrawDriver::Clear { .. }
            | DrawDriver::DrawArrays { .. }
            | DrawDriver::DrawElements { .. } => {}
        }
    }

    /// Puts an image at a level of what the target binds, where there was room for it.
    fn put_image(
        &mut self,
        target: GlEnum,
        level: i32,
        format: GlEnum,
        kind: GlEnum,
        width: i32,
        height: i32,
        answer: &Answer,
    ) -> Result<(), AllocError>
        requires { IsFitImage target level width height }
        ensures ok { OnOk result ((t : DriverTables) (js : List DriverEntry) → state_of t js self.new ≡ after_tex_image (state_of t js self.old) target level (view_of (image_words target level format kind width height)) answer.now) }
        ensures surface { self.new.surface ≡ self.old.surface }
    {
        match answer {
            Answer::Done => {
                let view = LevelView {
                    width: natural(width),
                    height: natural(height),
                    format,
                    kind,
                };
                self.textures.put_level(target, natural(level), view)
            }
            _ => Ok(()),
        }
    }

    /// Puts an image that was copied at a level of what the target binds, where there was room for it.
    fn copy_image(
        &mut self,
        target: GlEnum,
        level: i32,
        format: GlEnum,
        width: i32,
        height: i32,
        answer: &Answer,
    ) -> Result<(), AllocError>
        requires { IsFitImage target level width height }
        ensures ok { OnOk result ((t : DriverTables) (js : List DriverEntry) (x y : ℤ) → state_of t js self.new ≡ after_tex_image (state_of t js self.old) target level (view_of (copy_image (copy_words target level format x y width height))) answer.now) }
        ensures surface { self.new.surface ≡ self.old.surface }
    {
        self.put_image(target, level, format, UNSIGNED_BYTE, width, height, answer)
    }

    /// Gives the renderbuffer that is bound an image, where there was room for it.
    fn put_storage(&mut self, format: GlEnum, width: i32, height: i32, answer: &Answer)
        requires { renderbuffer_storage_refusal self.old.renderbuffers.tables RENDERBUFFER format width height ≡ None }
        ensures state { (t : DriverTables) (js : List DriverEntry) → state_of t js self.new ≡ after_storage (state_of t js self.old) (storage_view format width height) answer.now }
        ensures surface { self.new.surface ≡ self.old.surface }
    {
        if let Answer::Done = answer {
            self.renderbuffers.put_image(LevelView {
                width: natural(width),
                height: natural(height),
                format,
                kind: NONE,
            });
        }
    }

    /// Gives the buffer that the target binds the bytes that the entry at this place stores, where there was room for them.
    fn store(&mut self, target: GlEnum, place: usize, usage: GlEnum, answer: &Answer)
        requires { IsSome (bound (buffers_of [] self.old.buffers) target) }
        ensures state { (t : DriverTables) (js : List DriverEntry) → state_of t js self.new ≡ after_buffer_data (state_of t js self.old) target (bytes_at js place) usage answer.now }
        ensures surface { self.new.surface ≡ self.old.surface }
    {
        match answer {
            Answer::Done => self.buffers.store(target, place, usage),
            _ => {}
        }
    }

    /// Puts bytes in place of those of the buffer that the target binds, from an offset on.
    fn change(
        &mut self,
        journal: &[DriverEntry],
        target: GlEnum,
        offset: i32,
        bytes: &[u8],
    ) -> Result<(), AllocError>
        requires allowed { IsBufferSubDataAllowed (buffers_of journal.now self.old.buffers) target offset bytes.now }
        requires settled { (more : List DriverEntry) → buffers_of (journal.now ++ more) self.old.buffers ≡ buffers_of journal.now self.old.buffers }
        ensures ok { OnOk result ((t : DriverTables) (more : List DriverEntry) → let js = journal.now ++ more in state_of t js self.new ≡ after_object (state_of t js self.old) (BufferSubData target offset bytes.now) answers.Done) }
        ensures surface { self.new.surface ≡ self.old.surface }
    {
        self.buffers.change(journal, target, natural(offset), bytes)
    }

    /// Deletes a live buffer, in which no array lies from then on.
    fn delete(&mut self, name: u64)
        requires { IsLive self.old.buffers.names.names name }
        ensures state { (t : DriverTables) (js : List DriverEntry) → state_of t js self.new ≡ after_object (state_of t js self.old) (DeleteBuffer name) answers.Done }
        ensures surface { self.new.surface ≡ self.old.surface }
    {
        self.buffers.delete(name);
        self.attributes.unbind_buffer(name);
    }

    /// Sets the array of an attribute, which lies in the buffer that ARRAY_BUFFER binds.
    fn point(
        &mut self,
        index: u32,
        size: i32,
        kind: GlEnum,
        normalized: bool,
        stride: i32,
        offset: u32,
    )
        requires { vertex_attrib_pointer_refusal index size kind stride ≡ None }
        ensures state { (t : DriverTables) (js : List DriverEntry) → state_of t js self.new ≡ after_object (state_of t js self.old) (VertexAttribPointer index size kind normalized stride offset) answers.Done }
        ensures surface { self.new.surface ≡ self.old.surface }
    {
        let array = self.array_of(size, kind, normalized, stride, offset);
        self.attributes.set_array(index, array);
    }

    /// Gives a new name to a buffer.
    fn give(&mut self, answer: &Answer) -> Result<(), AllocError>
        requires { IsNewName self.old.buffers.names.given answer.now }
        ensures ok { OnOk result ((t : DriverTables) (js : List DriverEntry) → state_of t js self.new ≡ after_gen space.Buffers (state_of t js self.old) answer.now) }
        ensures surface { self.new.surface ≡ self.old.surface }
    {
        match answer {
            Answer::Name(name) => self.buffers.give(*name),
            _ => Ok(()),
        }
    }

    /// Gives a new name to a texture.
    fn give_texture(&mut self, answer: &Answer) -> Result<(), AllocError>
        requires { IsNewName self.old.textures.names.given answer.now }
        ensures ok { OnOk result ((t : DriverTables) (js : List DriverEntry) → state_of t js self.new ≡ after_gen space.Textures (state_of t js self.old) answer.now) }
        ensures surface { self.new.surface ≡ self.old.surface }
    {
        match answer {
            Answer::Name(name) => self.textures.give(*name),
            _ => Ok(()),
        }
    }
    /// Deletes a live texture, which is detached from the framebuffer that is bound.
    fn delete_texture(&mut self, name: u64)
        requires { IsLive self.old.textures.names.names name }
        ensures state { (t : DriverTables) (js : List DriverEntry) → state_of t js self.new ≡ after_object (state_of t js self.old) (DeleteTexture name) answers.Done }
        ensures surface { self.new.surface ≡ self.old.surface }
    {
        if let Some(found) = self.textures.name(name) {
            self.framebuffers.detach(true, found.number);
        }
        self.textures.delete(name);
    }

    /// Gives a new name to a renderbuffer.
    fn give_renderbuffer(&mut self, answer: &Answer) -> Result<(), AllocError>
        requires { IsNewName self.old.renderbuffers.given answer.now }
        ensures ok { OnOk result ((t : DriverTables) (js : List DriverEntry) → state_of t js self.new ≡ after_gen space.Renderbuffers (state_of t js self.old) answer.now) }
        ensures surface { self.new.surface ≡ self.old.surface }
    {
        match answer {
            Answer::Name(name) => self.renderbuffers.give(*name),
            _ => Ok(()),
        }
    }

    /// Deletes a live renderbuffer, which is detached from the framebuffer that is bound.
    fn delete_renderbuffer(&mut self, name: u64)
        requires { IsLive self.old.renderbuffers.tables.names name }
        ensures state { (t : DriverTables) (js : List DriverEntry) → state_of t js self.new ≡ after_object (state_of t js self.old) (DeleteRenderbuffer name) answers.Done }
        ensures surface { self.new.surface ≡ self.old.surface }
    {
        if let Some(found) = self.renderbuffers.name(name) {
            self.framebuffers.detach(false, found.number);
        }
        self.renderbuffers.delete(name);
    }

    /// Gives a new name to a framebuffer.
    fn give_framebuffer(&mut self, answer: &Answer) -> Result<(), AllocError>
        requires { IsNewName self.old.framebuffers.names.given answer.now }
        ensures ok { OnOk result ((t : DriverTables) (js : List DriverEntry) → state_of t js self.new ≡ after_gen space.Framebuffers (state_of t js self.old) answer.now) }
        ensures surface { self.new.surface ≡ self.old.surface }
    {
        match answer {
            Answer::Name(name) => self.framebuffers.give(*name),
            _ => Ok(()),
        }
    }

    /// Attaches a texture to the framebuffer that is bound, or nothing by 0.
    fn attach_texture(&mut self, attachment: GlEnum, textarget: GlEnum, name: u64)
        ensures state { (t : DriverTables) (js : List DriverEntry) → state_of t js self.new ≡ after_object (state_of t js self.old) (FramebufferTexture attachment textarget name) answers.Done }
        ensures surface { self.new.surface ≡ self.old.surface }
    {
        let image = match self.textures.name(name) {
            None => Attached::Nothing,
            Some(found) => Attached::Texture {
                object: found.number,
                name: 0,
                face: textarget,
            },
        };
        self.framebuffers.attach(attachment, image);
    }

    /// Attaches a renderbuffer to the framebuffer that is bound, or nothing by 0.
    fn attach_renderbuffer(&mut self, attachment: GlEnum, name: u64)
        ensures state { (t : DriverTables) (js : List DriverEntry) → state_of t js self.new ≡ after_object (state_of t js self.old) (FramebufferRenderbuffer attachment name) answers.Done }
        ensures surface { self.new.surface ≡ self.old.surface }
    {
        let image = match self.renderbuffers.name(name) {
            None => Attached::Nothing,
            Some(found) => Attached::Renderbuffer {
                object: found.number,
                name: 0,
            },
        };
        self.framebuffers.attach(attachment, image);
    }
}
