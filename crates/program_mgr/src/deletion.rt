//! Deletion of shaders and programs (OpenGL ES 2.0.25, sections 2.10.1 and 2.10.3): a shader that is attached, and a program that is
//! current, go only once that ends.
ghost use Rattle.std.specs.Prelude.{◌≡◌, ◌≢◌};
ghost use Rattle.gl_plain.specs.subjects.Programs as plain;
ghost use Rattle.program_mgr.specs.Tables.{marked_program, tables};

use crate::programs::Programs;

impl Programs {
    /// The name of the object with this number is out of use.
    fn unname(&mut self, number: u64)
        ensures { tables self.new ≡ plain.unnamed (tables self.old) number }
    {
        if let Some(id) = self.ids.remove(number) {
            self.names.remove(id);
        }
    }

    /// The shader goes, with its name.
    fn remove_shader(&mut self, number: u64)
        ensures { tables self.new ≡ plain.without_shader (tables self.old) number }
    {
        self.unname(number);
        self.shaders.remove(number);
    }

    /// A program has a shader attached no more. One that is marked for deletion goes with its last attachment.
    pub(crate) fn release(&mut self, number: u64)
        ensures { tables self.new ≡ plain.released (tables self.old) number }
    {
        let Some(shader) = self.shaders.get(number) else {
            return;
        };
        let attachments = shader.attachments();
        if shader.is_deleted() && attachments <= 1 {
            self.remove_shader(number);
            return;
        }
        if let Some(shader) = self.shaders.get_mut(number) {
            shader.set_attachments(attachments.saturating_sub(1));
        }
    }

    /// The same of each of these shaders, in order.
    fn release_all(&mut self, numbers: &[u64])
        ensures { tables self.new ≡ plain.all_released (tables self.old) numbers.now }
    {
        for number in numbers {
            self.release(*number);
        }
    }

    /// The program, which is not current, goes with its name, and detaches its shaders.
    fn remove_program(&mut self, number: u64)
        requires { number ≢ self.old.current }
        ensures { tables self.new ≡ plain.without_program (tables self.old) number }
    {
        let Some(program) = self.programs.remove(number) else {
            return;
        };
        self.unname(number);
        let attached = program.into_attached();
        self.release_all(attached.as_slice());
    }

    /// Deletes a shader: one that is attached is marked, and any other goes.
    pub fn delete_shader(&mut self, number: u64)
        ensures { tables self.new ≡ plain.delete_shader_effect (tables self.old) number }
    {
        let Some(shader) = self.shaders.get(number) else {
            return;
        };
        if shader.attachments() == 0 {
            self.remove_shader(number);
            return;
        }
        if let Some(shader) = self.shaders.get_mut(number) {
            shader.mark();
        }
    }

    /// A program is marked for deletion.
    fn mark_program(&mut self, number: u64)
        ensures { tables self.new ≡ marked_program (tables self.old) number }
    {
        if let Some(program) = self.programs.get_mut(number) {
            program.mark();
        }
    }

    /// Deletes a program: the current one is marked, and any other goes.
    pub fn delete_program(&mut self, number: u64)
        ensures { tables self.new ≡ plain.delete_program_effect (tables self.old) number }
    {
        if self.current == number {
            self.mark_program(number);
        } else {
            self.remove_program(number);
        }
    }

    /// A program that was marked goes once it is not current.
    fn retire(&mut self, number: u64)
        ensures { tables self.new ≡ plain.retired (tables self.old) number }
    {
        let Some(program) = self.programs.get(number) else {
            return;
        };
        if self.current != number && program.is_deleted() {
            self.remove_program(number);
        }
    }

    /// The program is current, and its executable is in use. By 0 there is none.
    pub fn use_program(&mut self, number: u64)
        ensures { tables self.new ≡ plain.use_program_effect (tables self.old) number }
    {
        let before = self.current;
        self.current = number;
        self.is_used = number != 0;
        self.kept = None;
        self.retire(before);
    }
}
