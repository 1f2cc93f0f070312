//! The trait of drivers.
ghost use Rattle.std.specs.Prelude.{◌≡◌, IfOk};
ghost use Rattle.gl_plain.specs.driver.Allowed.{IsAllowed};
ghost use Rattle.gl_plain.specs.driver.Answers.{stored_answer};
ghost use Rattle.gl_plain.specs.declared.driver_calls.DriverCall.TheVariants.{Object, Image, Program, Draw};
ghost use Rattle.gl_plain.specs.declared.driver_calls.ObjectDriver.TheVariants.{GenBuffer, BindBuffer, BufferData, BufferSubData, DeleteBuffer, GenTexture, BindTexture, DeleteTexture, GenRenderbuffer, BindRenderbuffer, DeleteRenderbuffer, GenFramebuffer, BindFramebuffer, DeleteFramebuffer, FramebufferTexture, FramebufferRenderbuffer, VertexAttrib4, VertexAttribPointer, SetArray};
ghost use Rattle.gl_plain.specs.declared.driver_calls.ImageDriver.TheVariants.{TexImage, TexSubImage, ZeroLevel, TexParameter, CopyTexImage, CopyTexSubImage, GenerateMipmap, RenderbufferStorage, ZeroRenderbuffer, ReadPixels};
ghost use Rattle.gl_plain.specs.declared.driver_calls.ProgramDriver.TheVariants as programs;
ghost use Rattle.gl_plain.specs.declared.driver_calls.DrawDriver.TheVariants as drawing;
ghost use Rattle.gl_plain.specs.declared.driver_calls.Answer.TheVariants.{Name, Compile, Link, Validate, Pixels};
ghost use Rattle.gl_driver.specs.History.{History, Served, Caused, Rose, entered, done};
ghost use Rattle.gl_driver.specs.Payloads.{payload_given};

use crate::stop::DriverStop;
use gl_base::{GlEnum, Rect};
use gl_plain::{Bytes, ImagePlace, LinkAnswer, PartWords, Stored};

/// A driver of OpenGL ES. Each call says in which state it may be made, and what it enters in the journal: the call with its answer,
/// or nothing where it stops.
pub trait Driver {
    /// Its state, its journal, its first stop and its two counts.
    ghost history: { Self → History };

    /// The second value may come of the first by calls.
    ghost grown: { Self → Self → Type 0 };

    /// A new buffer name, which was never given before.
    fn gen_buffer(&mut self) -> Result<u64, DriverStop>
        ensures served { Served history grown self.old self.new (entered result (Object GenBuffer) Name) }
        ensures cause { Caused (history self.old) (history self.new) result };

    /// Binds a buffer by its name, or nothing by 0.
    fn bind_buffer(&mut self, target: GlEnum, name: u64) -> Result<(), DriverStop>
        requires { IsAllowed (history self.old).state (Object (BindBuffer target name)) }
        ensures served { Served history grown self.old self.new (entered result (Object (BindBuffer target name)) done) }
        ensures cause { Caused (history self.old) (history self.new) result };

    /// Gives the bound buffer these bytes. `Oom` where it has no room, which leaves the state as it was.
    fn buffer_data(
        &mut self,
        target: GlEnum,
        bytes: &[u8],
        usage: GlEnum,
    ) -> Result<Stored, DriverStop>
        requires { IsAllowed (history self.old).state (Object (BufferData target bytes.now usage)) }
        ensures served { Served history grown self.old self.new (entered result (Object (BufferData target bytes.now usage)) stored_answer) }
        ensures cause { Caused (history self.old) (history self.new) result }
        ensures oom { IfOk result (λ s. s ≡ Stored.Oom → Rose (history self.old).ooms (history self.new).ooms) };

    /// Gives the bound buffer these bytes in place of those from an offset on.
    fn buffer_sub_data(
        &mut self,
        target: GlEnum,
        offset: i32,
        bytes: &[u8],
    ) -> Result<(), DriverStop>
        requires { IsAllowed (history self.old).state (Object (BufferSubData target offset bytes.now)) }
        ensures served { Served history grown self.old self.new (entered result (Object (BufferSubData target offset bytes.now)) done) }
        ensures cause { Caused (history self.old) (history self.new) result };

    /// Deletes a buffer with its name. Nothing binds it from then on, and no array lies in it.
    fn delete_buffer(&mut self, name: u64) -> Result<(), DriverStop>
        requires { IsAllowed (history self.old).state (Object (DeleteBuffer name)) }
        ensures served { Served history grown self.old self.new (entered result (Object (DeleteBuffer name)) done) }
        ensures cause { Caused (history self.old) (history self.new) result };

    /// A new texture name, which was never given before.
    fn gen_texture(&mut self) -> Result<u64, DriverStop>
        ensures served { Served history grown self.old self.new (entered result (Object GenTexture) Name) }
        ensures cause { Caused (history self.old) (history self.new) result };

    /// Has the active unit bind a texture by its name, or the default texture by 0.
    fn bind_texture(&mut self, target: GlEnum, name: u64) -> Result<(), DriverStop>
        requires { IsAllowed (history self.old).state (Object (BindTexture target name)) }
        ensures served { Served history grown self.old self.new (entered result (Object (BindTexture target name)) done) }
        ensures cause { Caused (history self.old) (history self.new) result };

    /// Deletes a texture with its name and its images. No unit binds it from then on.
    fn delete_texture(&mut self, name: u64) -> Result<(), DriverStop>
        requires { IsAllowed (history self.old).state (Object (DeleteTexture name)) }
        ensures served { Served history grown self.old self.new (entered result (Object (DeleteTexture name)) done) }
        ensures cause { Caused (history self.old) (history self.new) result };

    /// A new renderbuffer name, which was never given before.
    fn gen_renderbuffer(&mut self) -> Result<u64, DriverStop>
        ensures served { Served history grown self.old self.new (entered result (Object GenRenderbuffer) Name) }
        ensures cause { Caused (history self.old) (history self.new) result };

    /// Binds a renderbuffer by its name, or nothing by 0. The object is there from its first bind on.
    fn bind_renderbuffer(&mut self, name: u64) -> Result<(), DriverStop>
        requires { IsAllowed (history self.old).state (Object (BindRenderbuffer name)) }
        ensures served { Served history grown self.old self.new (entered result (Object (BindRenderbuffer name)) done) }
        ensures cause { Caused (history self.old) (history self.new) result };

    /// Deletes a renderbuffer with its name. It is detached from the framebuffer that is bound.
    fn delete_renderbuffer(&mut self, name: u64) -> Result<(), DriverStop>
        requires { IsAllowed (history self.old).state (Object (DeleteRenderbuffer name)) }
        ensures served { Served history grown self.old self.new (entered result (Object (DeleteRenderbuffer name)) done) }
        ensures cause { Caused (history self.old) (history self.new) result };

    /// A new framebuffer name, which was never given before.
    fn gen_framebuffer(&mut self) -> Result<u64, DriverStop>
        ensures served { Served history grown self.old self.new (entered result (Object GenFramebuffer) Name) }
        ensures cause { Caused (history self.old) (history self.new) result };

    /// Binds a framebuffer by its name, or the default framebuffer by 0. The object is there from its first bind on.
    fn bind_framebuffer(&mut self, name: u64) -> Result<(), DriverStop>
        requires { IsAllowed (history self.old).state (Object (BindFramebuffer name)) }
        ensures served { Served history grown self.old self.new (entered result (Object (BindFramebuffer name)) done) }
        ensures cause { Caused (history self.old) (history self.new) result };

    /// Deletes a framebuffer with its name.
    fn delete_framebuffer(&mut self, name: u64) -> Result<(), DriverStop>
        requires { IsAllowed (history self.old).state (Object (DeleteFramebuffer name)) }
        ensures served { Served history grown self.old self.new (entered result (Object (DeleteFramebuffer name)) done) }
        ensures cause { Caused (history self.old) (history self.new) result };

    /// Attaches level 0 of a texture to the framebuffer that is bound, or nothing by 0.
    fn framebuffer_texture(
        &mut self,
        attachment: GlEnum,
        textarget: GlEnum,
        name: u64,
    ) -> Result<(), DriverStop>
        requires { IsAllowed (history self.old).state (Object (FramebufferTexture attachment textarget name)) }
        ensures served { Served history grown self.old self.new (entered result (Object (FramebufferTexture attachment textarget name)) done) }
        ensures cause { Caused (history self.old) (history self.new) result };

    /// Attaches a renderbuffer to the framebuffer that is bound, or nothing by 0.
    fn framebuffer_renderbuffer(&mut self, attachment: GlEnum, name: u64) -> Result<(), DriverStop>
        requires { IsAllowed (history self.old).state (Object (FramebufferRenderbuffer attachment name)) }
        ensures served { Served history grown self.old self.new (entered result (Object (FramebufferRenderbuffer attachment name)) done) }
        ensures cause { Caused (history self.old) (history self.new) result };

    /// Sets the value that a vertex attribute has where its array is not enabled, as four float patterns.
    fn vertex_attrib_4(&mut self, index: u32, values: [u32; 4]) -> Result<(), DriverStop>
        requires { IsAllowed (history self.old).state (Object (VertexAttrib4 index values)) }
        ensures served { Served history grown self.old self.new (entered result (Object (VertexAttrib4 index values)) done) }
        ensures cause { Caused (history self.old) (history self.new) result };

    /// Sets the array of a vertex attribute, which lies in the buffer that ARRAY_BUFFER binds.
    fn vertex_attrib_pointer(
        &mut self,
        index: u32,
        size: i32,
        kind: GlEnum,
        normalized: bool,
        stride: i32,
        offset: u32,
    ) -> Result<(), DriverStop>
        requires { IsAllowed (history self.old).state (Object (VertexAttribPointer index size kind normalized stride offset)) }
        ensures served { Served history grown self.old self.new (entered result (Object (VertexAttribPointer index size kind normalized stride offset)) done) }
        ensures cause { Caused (history self.old) (history self.new) result };

    /// Enables the array of a vertex attribute, or disables it.
    fn set_array(&mut self, index: u32, on: bool) -> Result<(), DriverStop>
        requires { IsAllowed (history self.old).state (Object (SetArray index on)) }
        ensures served { Served history grown self.old self.new (entered result (Object (SetArray index on)) done) }
        ensures cause { Caused (history self.old) (history self.new) result };

    /// Makes an image for a level of what the target binds: these rows, without padding, or none. `Oom` where there is no room for it, which
    /// leaves the state as it was.
    fn tex_image(
        &mut self,
        target: GlEnum,
        level: i32,
        format: GlEnum,
        kind: GlEnum,
        width: i32,
        height: i32,
        bytes: Option<&[u8]>,
    ) -> Result<Stored, DriverStop>
        requires { IsAllowed (history self.old).state (Image (TexImage target level format kind width height (payload_given bytes))) }
        ensures served { Served history grown self.old self.new (entered result (Image (TexImage target level format kind width height (payload_given bytes.entry))) stored_answer) }
        ensures cause { Caused (history self.old) (history self.new) result }
        ensures oom { IfOk result (λ s. s ≡ Stored.Oom → Rose (history self.old).ooms (history self.new).ooms) };

    /// Gives a rectangle of a level of what the target binds these rows, without padding.
    fn tex_sub_image(
        &mut self,
        target: GlEnum,
        level: i32,
        x: i32,
        y: i32,
        width: i32,
        height: i32,
        format: GlEnum,
        kind: GlEnum,
        bytes: &[u8],
    ) -> Result<(), DriverStop>
        requires { IsAllowed (history self.old).state (Image (TexSubImage (record { target = target; level = level; x = x; y = y; width = width; height = height; format = format; kind = kind }) bytes.now)) }
        ensures served { Served history grown self.old self.new (entered result (Image (TexSubImage (record { target = target; level = level; x = x; y = y; width = width; height = height; format = format; kind = kind }) bytes.now)) done) }
        ensures cause { Caused (history self.old) (history self.new) result };

    /// Turns a rectangle of an image to zero. The image is named by its texture, or the default texture by 0, its face and its level.
    fn zero_level(
        &mut self,
        name: u64,
        face: GlEnum,
        level: u32,
        x: u32,
        y: u32,
        width: u32,
        height: u32,
    ) -> Result<(), DriverStop>
        requires { IsAllowed (history self.old).state (Image (ZeroLevel (record { texture = name; face = face; level = level }) (record { x = x; y = y; width = width; height = height }))) }
        ensures served { Served history grown self.old self.new (entered result (Image (ZeroLevel (record { texture = name; face = face; level = level }) (record { x = x; y = y; width = width; height = height }))) done) }
        ensures cause { Caused (history self.old) (history self.new) result };

    /// Sets a parameter of what the target binds.
    fn tex_parameter(
        &mut self,
        target: GlEnum,
        parameter: GlEnum,
        value: GlEnum,
    ) -> Result<(), DriverStop>
        requires { IsAllowed (history self.old).state (Image (TexParameter target parameter value)) }
        ensures served { Served history grown self.old self.new (entered result (Image (TexParameter target parameter value)) done) }
        ensures cause { Caused (history self.old) (history self.new) result };

    /// Gives a level of what the target binds an image with the pixels of a rectangle of what is drawn to; those outside are zero. `Oom` where it
    /// has no room, which leaves the state as it was.
    fn copy_tex_image(
        &mut self,
        target: GlEnum,
        level: i32,
        format: GlEnum,
        x: i32,
        y: i32,
        width: i32,
        height: i32,
    ) -> Result<Stored, DriverStop>
        requires { IsAllowed (history self.old).state (Image (CopyTexImage target level format x y width height)) }
        ensures served { Served history grown self.old self.new (entered result (Image (CopyTexImage target level format x y width height)) stored_answer) }
        ensures cause { Caused (history self.old) (history self.new) result }
        ensures oom { IfOk result (λ s. s ≡ Stored.Oom → Rose (history self.old).ooms (history self.new).ooms) };

    /// Gives a rectangle of a level of what the target binds the pixels of one of what is drawn to; those outside are zero.
    fn copy_tex_sub_image(
        &mut self,
        target: GlEnum,
        level: i32,
        xoffset: i32,
        yoffset: i32,
        x: i32,
        y: i32,
        width: i32,
        height: i32,
    ) -> Result<(), DriverStop>
        requires { IsAllowed (history self.old).state (Image (CopyTexSubImage (record { target = target; level = level; xoffset = xoffset; yoffset = yoffset; x = x; y = y; width = width; height = height }))) }
        ensures served { Served history grown self.old self.new (entered result (Image (CopyTexSubImage (record { target = target; level = level; xoffset = xoffset; yoffset = yoffset; x = x; y = y; width = width; height = height }))) done) }
        ensures cause { Caused (history self.old) (history self.new) result };

    /// Makes the halves of level 0 of what the target binds, down to one pixel.
    fn generate_mipmap(&mut self, target: GlEnum) -> Result<(), DriverStop>
        requires { IsAllowed (history self.old).state (Image (GenerateMipmap target)) }
        ensures served { Served history grown self.old self.new (entered result (Image (GenerateMipmap target)) done) }
        ensures cause { Caused (history self.old) (history self.new) result };

    /// Gives the renderbuffer that is bound an image of which nothing is written. `Oom` where it has no room, which leaves the state as it was.
    fn renderbuffer_storage(
        &mut self,
        format: GlEnum,
        width: i32,
        height: i32,
    ) -> Result<Stored, DriverStop>
        requires { IsAllowed (history self.old).state (Image (RenderbufferStorage format width height)) }
        ensures served { Served history grown self.old self.new (entered result (Image (RenderbufferStorage format width height)) stored_answer) }
        ensures cause { Caused (history self.old) (history self.new) result }
        ensures oom { IfOk result (λ s. s ≡ Stored.Oom → Rose (history self.old).ooms (history self.new).ooms) };

    /// Turns the image of a renderbuffer to zero.
    fn zero_renderbuffer(&mut self, name: u64) -> Result<(), DriverStop>
        requires { IsAllowed (history self.old).state (Image (ZeroRenderbuffer name)) }
        ensures served { Served history grown self.old self.new (entered result (Image (ZeroRenderbuffer name)) done) }
        ensures cause { Caused (history self.old) (history self.new) result };

    /// The colours of a rectangle of what is drawn to, row by row, as RGBA in four bytes; those outside are what the driver gives.
    fn read_pixels(&mut self, x: i32, y: i32, width: i32, height: i32) -> Result<Bytes, DriverStop>
        requires { IsAllowed (history self.old).state (Image (ReadPixels x y width height)) }
        ensures served { Served history grown self.old self.new (entered result (Image (ReadPixels x y width height)) Pixels) }
        ensures cause { Caused (history self.old) (history self.new) result };

    /// A new shader of this kind, under a name that was never given before.
    fn create_shader(&mut self, kind: GlEnum) -> Result<u64, DriverStop>
        requires { IsAllowed (history self.old).state (Program (programs.CreateShader kind)) }
        ensures served { Served history grown self.old self.new (entered result (Program (programs.CreateShader kind)) Name) }
        ensures cause { Caused (history self.old) (history self.new) result };

    /// A new program, under a name that was never given before.
    fn create_program(&mut self) -> Result<u64, DriverStop>
        ensures served { Served history grown self.old self.new (entered result (Program programs.CreateProgram) Name) }
        ensures cause { Caused (history self.old) (history self.new) result };

    /// Deletes a shader, once no program has it attached.
    fn delete_shader(&mut self, name: u64) -> Result<(), DriverStop>
        requires { IsAllowed (history self.old).state (Program (programs.DeleteShader name)) }
        ensures served { Served history grown self.old self.new (entered result (Program (programs.DeleteShader name)) done) }
        ensures cause { Caused (history self.old) (history self.new) result };

    /// Deletes a program, once it is not current.
    fn delete_program(&mut self, name: u64) -> Result<(), DriverStop>
        requires { IsAllowed (history self.old).state (Program (programs.DeleteProgram name)) }
        ensures served { Served history grown self.old self.new (entered result (Program (programs.DeleteProgram name)) done) }
        ensures cause { Caused (history self.old) (history self.new) result };

    /// Gives a shader its source.
    fn shader_source(&mut self, name: u64, bytes: &[u8]) -> Result<(), DriverStop>
        requires { IsAllowed (history self.old).state (Program (programs.ShaderSource name bytes.now)) }
        ensures served { Served history grown self.old self.new (entered result (Program (programs.ShaderSource name bytes.now)) done) }
        ensures cause { Caused (history self.old) (history self.new) result };

    /// Compiles a shader. The answer is whether it went well, and the log.
    fn compile_shader(&mut self, name: u64) -> Result<(bool, Bytes), DriverStop>
        requires { IsAllowed (history self.old).state (Program (programs.CompileShader name)) }
        ensures served { Served history grown self.old self.new (entered result (Program (programs.CompileShader name)) (λ said. Compile said.0 said.1)) }
        ensures cause { Caused (history self.old) (history self.new) result };

    /// Attaches a shader to a program.
    fn attach_shader(&mut self, program: u64, shader: u64) -> Result<(), DriverStop>
        requires { IsAllowed (history self.old).state (Program (programs.AttachShader program shader)) }
        ensures served { Served history grown self.old self.new (entered result (Program (programs.AttachShader program shader)) done) }
        ensures cause { Caused (history self.old) (history self.new) result };

    /// Detaches a shader from a program.
    fn detach_shader(&mut self, program: u64, shader: u64) -> Result<(), DriverStop>
        requires { IsAllowed (history self.old).state (Program (programs.DetachShader program shader)) }
        ensures served { Served history grown self.old self.new (entered result (Program (programs.DetachShader program shader)) done) }
        ensures cause { Caused (history self.old) (history self.new) result };

    /// Asks for the location of an attribute of this name, from the next link on.
    fn bind_attrib_location(
        &mut self,
        program: u64,
        index: u32,
        name: &[u8],
    ) -> Result<(), DriverStop>
        requires { IsAllowed (history self.old).state (Program (programs.BindAttribLocation program index name.now)) }
        ensures served { Served history grown self.old self.new (entered result (Program (programs.BindAttribLocation program index name.now)) done) }
        ensures cause { Caused (history self.old) (history self.new) result };

    /// Links a program. The answer is what the linker says.
    fn link_program(&mut self, name: u64) -> Result<LinkAnswer, DriverStop>
        requires { IsAllowed (history self.old).state (Program (programs.LinkProgram name)) }
        ensures served { Served history grown self.old self.new (entered result (Program (programs.LinkProgram name)) Link) }
        ensures cause { Caused (history self.old) (history self.new) result };

    /// Validates a program. The answer is whether it went well, and the log.
    fn validate_program(&mut self, name: u64) -> Result<(bool, Bytes), DriverStop>
        requires { IsAllowed (history self.old).state (Program (programs.ValidateProgram name)) }
        ensures served { Served history grown self.old self.new (entered result (Program (programs.ValidateProgram name)) (λ said. Validate said.0 said.1)) }
        ensures cause { Caused (history self.old) (history self.new) result };

    /// Makes a program current, or none by 0.
    fn use_program(&mut self, name: u64) -> Result<(), DriverStop>
        requires { IsAllowed (history self.old).state (Program (programs.UseProgram name)) }
        ensures served { Served history grown self.old self.new (entered result (Program (programs.UseProgram name)) done) }
        ensures cause { Caused (history self.old) (history self.new) result };

    /// Gives elements of a uniform their values, from a location on, in the executable that is in use.
    fn uniform(
        &mut self,
        location: i32,
        kind: u32,
        count: i32,
        bytes: &[u8],
    ) -> Result<(), DriverStop>
        requires { IsAllowed (history self.old).state (Program (programs.Uniform location kind count bytes.now)) }
        ensures served { Served history grown self.old self.new (entered result (Program (programs.Uniform location kind count bytes.now)) done) }
        ensures cause { Caused (history self.old) (history self.new) result };

    /// Has the texture unit of this number, from 0, be the active one.
    fn active_texture(&mut self, unit: u32) -> Result<(), DriverStop>
        requires { IsAllowed (history self.old).state (Draw (drawing.ActiveTexture unit)) }
        ensures served { Served history grown self.old self.new (entered result (Draw (drawing.ActiveTexture unit)) done) }
        ensures cause { Caused (history self.old) (history self.new) result };

    /// Sets words of the fixed state: those of the command of this number, as they are kept (from Enable to Viewport, but for PixelStorei).
    fn set_raster(&mut self, number: u32, words: &[u32]) -> Result<(), DriverStop>
        requires { IsAllowed (history self.old).state (Draw (drawing.SetRaster number words.now)) }
        ensures served { Served history grown self.old self.new (entered result (Draw (drawing.SetRaster number words.now)) done) }
        ensures cause { Caused (history self.old) (history self.new) result };

    /// Clears the images of the default framebuffer that the mask names.
    fn clear(&mut self, mask: u32) -> Result<(), DriverStop>
        requires { IsAllowed (history self.old).state (Draw (drawing.Clear mask)) }
        ensures served { Served history grown self.old self.new (entered result (Draw (drawing.Clear mask)) done) }
        ensures cause { Caused (history self.old) (history self.new) result };

    /// Draws so many elements of the arrays, from the first on. The mask has a bit for each texture unit that is sampled and whose texture is
    /// not complete, and reads as black.
    fn draw_arrays(
        &mut self,
        mode: GlEnum,
        first: i32,
        count: i32,
        black: u32,
    ) -> Result<(), DriverStop>
        requires { IsAllowed (history self.old).state (Draw (drawing.DrawArrays mode first count black)) }
        ensures served { Served history grown self.old self.new (entered result (Draw (drawing.DrawArrays mode first count black)) done) }
        ensures cause { Caused (history self.old) (history self.new) result };

    /// Draws the elements that so many indices name, which lie in the buffer that ELEMENT_ARRAY_BUFFER binds, from this byte on. The mask is
    /// that of `draw_arrays`.
    fn draw_elements(
        &mut self,
        mode: GlEnum,
        count: i32,
        kind: GlEnum,
        offset: u32,
        black: u32,
    ) -> Result<(), DriverStop>
        requires { IsAllowed (history self.old).state (Draw (drawing.DrawElements mode count kind offset black)) }
        ensures served { Served history grown self.old self.new (entered result (Draw (drawing.DrawElements mode count kind offset black)) done) }
        ensures cause { Caused (history self.old) (history self.new) result };

    ghost grown_itself: { (a : Self) → grown a a };

    ghost grown_further: { (a b c : Self) → grown a b → grown b c → grown a c };
}
