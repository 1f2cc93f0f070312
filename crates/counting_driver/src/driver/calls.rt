//! The calls of a driver that counts, each with its entry.
ghost use Rattle.std.specs.Prelude.{◌≡◌};
ghost use Rattle.gl_plain.specs.subjects.Links.{default_link};

use super::CountingDriver;
use crate::journal::Made;
use crate::names::Names;
use gl_base::{GlEnum, Rect};
use gl_driver::{Driver, DriverStop, Stored};
use gl_plain::{
    Answer, AttributeList, Bytes, CopyPartWords, DrawDriver, DriverCall, ImageDriver, ImagePlace,
    LinkAnswer, ObjectDriver, PartWords, ProgramDriver, UniformList,
};
use std::alloc::Global;

impl Driver for CountingDriver {
    ghost use Rattle.counting_driver.specs.CountingHistory.{history_of, IsLater, later_itself, later_further};

    ghost history = { history_of };

    ghost grown = { IsLater };

    fn gen_buffer(&mut self) -> Result<u64, DriverStop> {
        let name = self.name_behind(self.names.buffers)?;
        let call = DriverCall::Object(ObjectDriver::GenBuffer);
        let names = Names {
            buffers: name,
            ..self.names
        };
        self.give(call, name, names);
        Ok(name)
    }

    fn bind_buffer(&mut self, target: GlEnum, name: u64) -> Result<(), DriverStop> {
        self.make_plain(DriverCall::Object(ObjectDriver::BindBuffer { target, name }))
    }

    fn buffer_data(
        &mut self,
        target: GlEnum,
        bytes: &[u8],
        usage: GlEnum,
    ) -> Result<Stored, DriverStop> {
        self.make(&Made::BufferData {
            target,
            bytes,
            usage,
        })?;
        Ok(Stored::Done)
    }

    fn buffer_sub_data(
        &mut self,
        target: GlEnum,
        offset: i32,
        bytes: &[u8],
    ) -> Result<(), DriverStop> {
        self.make(&Made::BufferSubData {
            target,
            offset,
            bytes,
        })
    }

    fn delete_buffer(&mut self, name: u64) -> Result<(), DriverStop> {
        self.make_plain(DriverCall::Object(ObjectDriver::DeleteBuffer { name }))
    }

    fn gen_texture(&mut self) -> Result<u64, DriverStop> {
        let name = self.name_behind(self.names.textures)?;
        let call = DriverCall::Object(ObjectDriver::GenTexture);
        let names = Names {
            textures: name,
            ..self.names
        };
        self.give(call, name, names);
        Ok(name)
    }

    fn bind_texture(&mut self, target: GlEnum, name: u64) -> Result<(), DriverStop> {
        self.make_plain(DriverCall::Object(ObjectDriver::BindTexture { target, name }))
    }

    fn delete_texture(&mut self, name: u64) -> Result<(), DriverStop> {
        self.make_plain(DriverCall::Object(ObjectDriver::DeleteTexture { name }))
    }

    fn gen_renderbuffer(&mut self) -> Result<u64, DriverStop> {
        let name = self.name_behind(self.names.renderbuffers)?;
        let call = DriverCall::Object(ObjectDriver::GenRenderbuffer);
        let names = Names {
            renderbuffers: name,
            ..self.names
        };
        self.give(call, name, names);
        Ok(name)
    }

    fn bind_renderbuffer(&mut self, name: u64) -> Result<(), DriverStop> {
        self.make_plain(DriverCall::Object(ObjectDriver::BindRenderbuffer { name }))
    }

    fn delete_renderbuffer(&mut self, name: u64) -> Result<(), DriverStop> {
        self.make_plain(DriverCall::Object(ObjectDriver::DeleteRenderbuffer { name }))
    }

    fn gen_framebuffer(&mut self) -> Result<u64, DriverStop> {
        let name = self.name_behind(self.names.framebuffers)?;
        let call = DriverCall::Object(ObjectDriver::GenFramebuffer);
        let names = Names {
            framebuffers: name,
            ..self.names
        };
        self.give(call, name, names);
        Ok(name)
    }

    fn bind_framebuffer(&mut self, name: u64) -> Result<(), DriverStop> {
        self.make_plain(DriverCall::Object(ObjectDriver::BindFramebuffer { name }))
    }

    fn delete_framebuffer(&mut self, name: u64) -> Result<(), DriverStop> {
        self.make_plain(DriverCall::Object(ObjectDriver::DeleteFramebuffer { name }))
    }

    fn framebuffer_texture(
        &mut self,
        attachment: GlEnum,
        textarget: GlEnum,
        name: u64,
    ) -> Result<(), DriverStop> {
        self.make_plain(DriverCall::Object(ObjectDriver::FramebufferTexture {
            attachment,
            textarget,
            name,
        }))
    }

    fn framebuffer_renderbuffer(
        &mut self,
        attachment: GlEnum,
        name: u64,
    ) -> Result<(), DriverStop> {
        self.make_plain(DriverCall::Object(ObjectDriver::FramebufferRenderbuffer {
            attachment,
            name,
        }))
    }

    fn vertex_attrib_4(&mut self, index: u32, values: [u32; 4]) -> Result<(), DriverStop> {
        self.make_plain(DriverCall::Object(ObjectDriver::VertexAttrib4 { index, values }))
    }

    fn vertex_attrib_pointer(
        &mut self,
        index: u32,
        size: i32,
        kind: GlEnum,
        normalized: bool,
        stride: i32,
        offset: u32,
    ) -> Result<(), DriverStop> {
        self.make_plain(DriverCall::Object(ObjectDriver::VertexAttribPointer {
            index,
            size,
            kind,
            normalized,
            stride,
            offset,
        }))
    }

    fn set_array(&mut self, index: u32, on: bool) -> Result<(), DriverStop> {
        self.make_plain(DriverCall::Object(ObjectDriver::SetArray { index, on }))
    }

    fn tex_image(
        &mut self,
        target: GlEnum,
        level: i32,
        format: GlEnum,
        kind: GlEnum,
        width: i32,
        height: i32,
        bytes: Option<&[u8]>,
    ) -> Result<Stored, DriverStop> {
        self.make(&Made::TexImage {
            target,
            level,
            format,
            kind,
            width,
            height,
            bytes,
        })?;
        Ok(Stored::Done)
    }

    fn tex_sub_image(
        &mut self,
        target: GlEnum,
        level: i32,
        x: i32,
        y: i32,
        width: i32,
        height: i32,
        format: GlEnum,
        kind: GlEnum,
        bytes: &[u8],
    ) -> Result<(), DriverStop> {
        let part = PartWords {
            target,
            level,
            x,
            y,
            width,
            height,
            format,
            kind,
        };
        self.make(&Made::TexSubImage { part, bytes })
    }

    fn zero_level(
        &mut self,
        name: u64,
        face: GlEnum,
        level: u32,
        x: u32,
        y: u32,
        width: u32,
        height: u32,
    ) -> Result<(), DriverStop> {
        let place = ImagePlace {
            texture: name,
            face,
            level,
        };
        let rect = Rect {
            x,
            y,
            width,
            height,
        };
        self.make_plain(DriverCall::Image(ImageDriver::ZeroLevel { place, rect }))
    }

    fn tex_parameter(
        &mut self,
        target: GlEnum,
        parameter: GlEnum,
        value: GlEnum,
    ) -> Result<(), DriverStop> {
        self.make_plain(DriverCall::Image(ImageDriver::TexParameter {
            target,
            pname: parameter,
            value,
        }))
    }

    fn copy_tex_image(
        &mut self,
        target: GlEnum,
        level: i32,
        format: GlEnum,
        x: i32,
        y: i32,
        width: i32,
        height: i32,
    ) -> Result<Stored, DriverStop> {
        self.make_plain(DriverCall::Image(ImageDriver::CopyTexImage {
            target,
            level,
            format,
            x,
            y,
            width,
            height,
        }))?;
        Ok(Stored::Done)
    }

    fn copy_tex_sub_image(
        &mut self,
        target: GlEnum,
        level: i32,
        xoffset: i32,
        yoffset: i32,
        x: i32,
        y: i32,
        width: i32,
        height: i32,
    ) -> Result<(), DriverStop> {
        let copy = CopyPartWords {
            target,
            level,
            xoffset,
            yoffset,
            x,
            y,
            width,
            height,
        };
        self.make_plain(DriverCall::Image(ImageDriver::CopyTexSubImage { copy }))
    }

    fn generate_mipmap(&mut self, target: GlEnum) -> Result<(), DriverStop> {
        self.make_plain(DriverCall::Image(ImageDriver::GenerateMipmap { target }))
    }

    fn renderbuffer_storage(
        &mut self,
        format: GlEnum,
        width: i32,
        height: i32,
    ) -> Result<Stored, DriverStop> {
        self.make_plain(DriverCall::Image(ImageDriver::RenderbufferStorage {
            format,
            width,
            height,
        }))?;
        Ok(Stored::Done)
    }

    fn zero_renderbuffer(&mut self, name: u64) -> Result<(), DriverStop> {
        self.make_plain(DriverCall::Image(ImageDriver::ZeroRenderbuffer { name }))
    }

    fn read_pixels(
        &mut self,
        x: i32,
        y: i32,
        width: i32,
        height: i32,
    ) -> Result<Bytes, DriverStop> {
        let pixels = self.zeros(width, height)?;
        self.make(&Made::ReadPixels {
            x,
            y,
            width,
            height,
            pixels: pixels.as_slice(),
        })?;
        Ok(pixels)
    }

    fn create_shader(&mut self, kind: GlEnum) -> Result<u64, DriverStop> {
        let name = self.name_behind(self.names.programs)?;
        let call = DriverCall::Program(ProgramDriver::CreateShader { kind });
        let names = Names {
            programs: name,
            ..self.names
        };
        self.give(call, name, names);
        Ok(name)
    }

    fn create_program(&mut self) -> Result<u64, DriverStop> {
        let name = self.name_behind(self.names.programs)?;
        let call = DriverCall::Program(ProgramDriver::CreateProgram);
        let names = Names {
            programs: name,
            ..self.names
        };
        self.give(call, name, names);
        Ok(name)
    }

    fn delete_shader(&mut self, name: u64) -> Result<(), DriverStop> {
        self.make_plain(DriverCall::Program(ProgramDriver::DeleteShader { name }))
    }

    fn delete_program(&mut self, name: u64) -> Result<(), DriverStop> {
        self.make_plain(DriverCall::Program(ProgramDriver::DeleteProgram { name }))
    }

    fn shader_source(&mut self, name: u64, bytes: &[u8]) -> Result<(), DriverStop> {
        self.make(&Made::ShaderSource { name, bytes })
    }

    fn compile_shader(&mut self, name: u64) -> Result<(bool, Bytes), DriverStop> {
        let call = DriverCall::Program(ProgramDriver::CompileShader { name });
        let answer = Answer::Compile {
            ok: true,
            log: Bytes::new(self.alloc),
        };
        self.make(&Made::Plain {
            call: &call,
            answer: &answer,
        })?;
        Ok((true, Bytes::new(self.alloc)))
    }

    fn attach_shader(&mut self, program: u64, shader: u64) -> Result<(), DriverStop> {
        self.make_plain(DriverCall::Program(ProgramDriver::AttachShader { program, shader }))
    }

    fn detach_shader(&mut self, program: u64, shader: u64) -> Result<(), DriverStop> {
        self.make_plain(DriverCall::Program(ProgramDriver::DetachShader { program, shader }))
    }

    fn bind_attrib_location(
        &mut self,
        program: u64,
        index: u32,
        name: &[u8],
    ) -> Result<(), DriverStop> {
        self.make(&Made::BindAttribLocation {
            program,
            index,
            name,
        })
    }

    fn link_program(&mut self, name: u64) -> Result<LinkAnswer, DriverStop> {
        let call = DriverCall::Program(ProgramDriver::LinkProgram { name });
        let answer = Answer::Link(bare_link(self.alloc));
        self.make(&Made::Plain {
            call: &call,
            answer: &answer,
        })?;
        Ok(bare_link(self.alloc))
    }

    fn validate_program(&mut self, name: u64) -> Result<(bool, Bytes), DriverStop> {
        let call = DriverCall::Program(ProgramDriver::ValidateProgram { name });
        let answer = Answer::Validate {
            ok: true,
            log: Bytes::new(self.alloc),
        };
        self.make(&Made::Plain {
            call: &call,
            answer: &answer,
        })?;
        Ok((true, Bytes::new(self.alloc)))
    }

    fn use_program(&mut self, name: u64) -> Result<(), DriverStop> {
        self.make_plain(DriverCall::Program(ProgramDriver::UseProgram { name }))
    }

    fn uniform(
        &mut self,
        location: i32,
        kind: u32,
        count: i32,
        bytes: &[u8],
    ) -> Result<(), DriverStop> {
        self.make(&Made::Uniform {
            location,
            kind,
            count,
            bytes,
        })
    }

    fn active_texture(&mut self, unit: u32) -> Result<(), DriverStop> {
        self.make_plain(DriverCall::Draw(DrawDriver::ActiveTexture { unit }))
    }

    fn set_raster(&mut self, number: u32, words: &[u32]) -> Result<(), DriverStop> {
        self.make(&Made::SetRaster { number, words })
    }

    fn clear(&mut self, mask: u32) -> Result<(), DriverStop> {
        self.make_plain(DriverCall::Draw(DrawDriver::Clear { mask }))
    }

    fn draw_arrays(
        &mut self,
        mode: GlEnum,
        first: i32,
        count: i32,
        black: u32,
    ) -> Result<(), DriverStop> {
        self.make_plain(DriverCall::Draw(DrawDriver::DrawArrays {
            mode,
            first,
            count,
            black,
        }))
    }

    fn draw_elements(
        &mut self,
        mode: GlEnum,
        count: i32,
        kind: GlEnum,
        offset: u32,
        black: u32,
    ) -> Result<(), DriverStop> {
        self.make_plain(DriverCall::Draw(DrawDriver::DrawElements {
            mode,
            count,
            kind,
            offset,
            black,
        }))
    }

    ghost grown_itself = { later_itself };

    ghost grown_further = { later_further };
}

/// A link that went well, with nothing active. It takes no memory.
fn bare_link(alloc: Global) -> LinkAnswer
    ensures { result ≡ default_link }
{
    LinkAnswer {
        ok: true,
        log: Bytes::new(alloc),
        attributes: AttributeList::new(alloc),
        uniforms: UniformList::new(alloc),
    }
}
