//! The values of uniforms in the executable that is in use (OpenGL ES 2.0.25, section 2.10.4).
ghost use Rattle.std.specs.Prelude.{◌≡◌, None, false, true, OnOk, OnErr, is_some, length};
ghost use Rattle.std.specs.FinMap as map;
ghost use Rattle.gl_plain.specs.subjects.Programs as programs_of;
ghost use Rattle.gl_plain.specs.subjects.Uniforms as plain;
ghost use Rattle.program_mgr.specs.Refused.{code_in};
ghost use Rattle.program_mgr.specs.Tables.{tables};

use crate::programs::Programs;
use crate::refusal::ProgramRefusal;

impl Programs {
    /// Whether the current program has an executable.
    fn has_own(&self) -> bool
        ensures { result ≡ is_some (programs_of.executable_in (map.get (tables self.now).programs (tables self.now).current)) }
    {
        match self.programs.get(self.current) {
            Some(program) => program.is_linked(),
            None => false,
        }
    }

    /// Stores what is given in the executable that is in use.
    fn store_uniform(&mut self, location: i32, kind: u32, count: i32, bytes: &[u8])
        requires size { length bytes.now ≡ plain.uniform_needed kind count }
        requires taken { plain.uniform_refusal (tables self.old).installed location kind count false bytes.now ≡ None }
        requires given { plain.is_given_kind kind ≡ true }
        ensures { tables self.new ≡ plain.uniform_effect (tables self.old) location kind count bytes.now }
    {
        if self.has_own() {
            if let Some(program) = self.programs.get_mut(self.current) {
                program.store(location, kind, count, bytes);
            }
            return;
        }
        if let Some(executable) = &mut self.kept {
            executable.store(location, kind, count, bytes);
        }
    }

    /// Uniform, without a matrix to be transposed: gives values to the elements from a location on. It is refused as `uniform_refusal` says.
    /// It takes no memory.
    pub fn set_uniform(
        &mut self,
        location: i32,
        kind: u32,
        count: i32,
        bytes: &[u8],
    ) -> Result<(), ProgramRefusal>
        requires given { plain.is_given_kind kind ≡ true }
        requires size { length bytes.now ≡ plain.uniform_needed kind count }
        ensures refusal { code_in result ≡ plain.uniform_refusal (tables self.old).installed location kind count false bytes.now }
        ensures ok { OnOk result (tables self.new ≡ plain.uniform_effect (tables self.old) location kind count bytes.now) }
        ensures err { OnErr result (tables self.new ≡ tables self.old) }
    {
        if let Some(error) = self.uniform_refusal(location, kind, count, false, bytes) {
            return Err(ProgramRefusal::Gl(error));
        }
        self.store_uniform(location, kind, count, bytes);
        Ok(())
    }
}
