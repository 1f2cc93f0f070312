//! The calls of the strict driver: whether each may be made, its answer, and its entry.
use super::StrictDriver;
use crate::said::{payload, read_count};
use crate::tables::natural;
use gl_base::{GlEnum, Rect};
use gl_driver::{Driver, DriverStop, Stored};
use gl_plain::{
    Answer, Bytes, CopyPartWords, DrawDriver, DriverCall, ImageDriver, ImagePlace, LinkAnswer,
    ObjectDriver, PartWords, ProgramDriver, Verdict, Words,
};

impl Driver for StrictDriver {
    ghost use Rattle.strict_driver.specs.StrictHistory.{history_of, Continues, continues_itself, continues_further};

    ghost history = { history_of };

    ghost grown = { Continues };

    fn gen_buffer(&mut self) -> Result<u64, DriverStop> {
        self.ready()?;
        let next = self.next_buffer();
        self.give(DriverCall::Object(ObjectDriver::GenBuffer), next)
    }

    fn bind_buffer(&mut self, target: GlEnum, name: u64) -> Result<(), DriverStop> {
        self.ready()?;
        let call = ObjectDriver::BindBuffer { target, name };
        self.enter(DriverCall::Object(call), Answer::Done)
    }

    fn buffer_data(
        &mut self,
        target: GlEnum,
        bytes: &[u8],
        usage: GlEnum,
    ) -> Result<Stored, DriverStop> {
        self.ready()?;
        let Ok(bytes) = Bytes::from_slice(self.alloc, bytes) else {
            return Err(self.stop());
        };
        let call = ObjectDriver::BufferData {
            target,
            bytes,
            usage,
        };
        self.store(DriverCall::Object(call))
    }

    fn buffer_sub_data(
        &mut self,
        target: GlEnum,
        offset: i32,
        bytes: &[u8],
    ) -> Result<(), DriverStop> {
        self.ready()?;
        let Ok(bytes) = Bytes::from_slice(self.alloc, bytes) else {
            return Err(self.stop());
        };
        let call = ObjectDriver::BufferSubData {
            target,
            offset,
            bytes,
        };
        self.enter(DriverCall::Object(call), Answer::Done)
    }

    fn delete_buffer(&mut self, name: u64) -> Result<(), DriverStop> {
        self.ready()?;
        let call = ObjectDriver::DeleteBuffer { name };
        self.enter(DriverCall::Object(call), Answer::Done)
    }

    fn gen_texture(&mut self) -> Result<u64, DriverStop> {
        self.ready()?;
        let next = self.next_texture();
        self.give(DriverCall::Object(ObjectDriver::GenTexture), next)
    }

    fn bind_texture(&mut self, target: GlEnum, name: u64) -> Result<(), DriverStop> {
        self.ready()?;
        let call = ObjectDriver::BindTexture { target, name };
        self.enter(DriverCall::Object(call), Answer::Done)
    }

    fn delete_texture(&mut self, name: u64) -> Result<(), DriverStop> {
        self.ready()?;
        let call = ObjectDriver::DeleteTexture { name };
        self.enter(DriverCall::Object(call), Answer::Done)
    }

    fn gen_renderbuffer(&mut self) -> Result<u64, DriverStop> {
        self.ready()?;
        let next = self.next_renderbuffer();
        self.give(DriverCall::Object(ObjectDriver::GenRenderbuffer), next)
    }

    fn bind_renderbuffer(&mut self, name: u64) -> Result<(), DriverStop> {
        self.ready()?;
        let call = ObjectDriver::BindRenderbuffer { name };
        self.enter(DriverCall::Object(call), Answer::Done)
    }

    fn delete_renderbuffer(&mut self, name: u64) -> Result<(), DriverStop> {
        self.ready()?;
        let call = ObjectDriver::DeleteRenderbuffer { name };
        self.enter(DriverCall::Object(call), Answer::Done)
    }

    fn gen_framebuffer(&mut self) -> Result<u64, DriverStop> {
        self.ready()?;
        let next = self.next_framebuffer();
        self.give(DriverCall::Object(ObjectDriver::GenFramebuffer), next)
    }

    fn bind_framebuffer(&mut self, name: u64) -> Result<(), DriverStop> {
        self.ready()?;
        let call = ObjectDriver::BindFramebuffer { name };
        self.enter(DriverCall::Object(call), Answer::Done)
    }

    fn delete_framebuffer(&mut self, name: u64) -> Result<(), DriverStop> {
        self.ready()?;
        let call = ObjectDriver::DeleteFramebuffer { name };
        self.enter(DriverCall::Object(call), Answer::Done)
    }

    fn framebuffer_texture(
        &mut self,
        attachment: GlEnum,
        textarget: GlEnum,
        name: u64,
    ) -> Result<(), DriverStop> {
        self.ready()?;
        let call = ObjectDriver::FramebufferTexture {
            attachment,
            textarget,
            name,
        };
        self.enter(DriverCall::Object(call), Answer::Done)
    }

    fn framebuffer_renderbuffer(
        &mut self,
        attachment: GlEnum,
        name: u64,
    ) -> Result<(), DriverStop> {
        self.ready()?;
        let call = ObjectDriver::FramebufferRenderbuffer { attachment, name };
        self.enter(DriverCall::Object(call), Answer::Done)
    }

    fn vertex_attrib_4(&mut self, index: u32, values: [u32; 4]) -> Result<(), DriverStop> {
        self.ready()?;
        let call = ObjectDriver::VertexAttrib4 { index, values };
        self.enter(DriverCall::Object(call), Answer::Done)
    }

    fn vertex_attrib_pointer(
        &mut self,
        index: u32,
        size: i32,
        kind: GlEnum,
        normalized: bool,
        stride: i32,
        offset: u32,
    ) -> Result<(), DriverStop> {
        self.ready()?;
        let call = ObjectDriver::VertexAttribPointer {
            index,
            size,
            kind,
            normalized,
            stride,
            offset,
        };
        self.enter(DriverCall::Object(call), Answer::Done)
    }

    fn set_array(&mut self, index: u32, on: bool) -> Result<(), DriverStop> {
        self.ready()?;
        let call = ObjectDriver::SetArray { index, on };
        self.enter(DriverCall::Object(call), Answer::Done)
    }

    fn tex_image(
        &mut self,
        target: GlEnum,
        level: i32,
        format: GlEnum,
        kind: GlEnum,
        width: i32,
        height: i32,
        bytes: Option<&[u8]>,
    ) -> Result<Stored, DriverStop> {
        self.ready()?;
        let Ok(payload) = payload(self.alloc, bytes) else {
            return Err(self.stop());
        };
        let call = ImageDriver::TexImage {
            target,
            level,
            format,
            kind,
            width,
            height,
            payload,
        };
        self.store(DriverCall::Image(call))
    }

    fn tex_sub_image(
        &mut self,
        target: GlEnum,
        level: i32,
        x: i32,
        y: i32,
        width: i32,
        height: i32,
        format: GlEnum,
        kind: GlEnum,
        bytes: &[u8],
    ) -> Result<(), DriverStop> {
        self.ready()?;
        let Ok(bytes) = Bytes::from_slice(self.alloc, bytes) else {
            return Err(self.stop());
        };
        let part = PartWords {
            target,
            level,
            x,
            y,
            width,
            height,
            format,
            kind,
        };
        let call = ImageDriver::TexSubImage { part, bytes };
        self.enter(DriverCall::Image(call), Answer::Done)
    }

    fn zero_level(
        &mut self,
        name: u64,
        face: GlEnum,
        level: u32,
        x: u32,
        y: u32,
        width: u32,
        height: u32,
    ) -> Result<(), DriverStop> {
        self.ready()?;
        let place = ImagePlace {
            texture: name,
            face,
            level,
        };
        let rect = Rect {
            x,
            y,
            width,
            height,
        };
        let call = ImageDriver::ZeroLevel { place, rect };
        self.enter(DriverCall::Image(call), Answer::Done)
    }

    fn tex_parameter(
        &mut self,
        target: GlEnum,
        parameter: GlEnum,
        value: GlEnum,
    ) -> Result<(), DriverStop> {
        self.ready()?;
        let call = ImageDriver::TexParameter {
            target,
            pname: parameter,
            value,
        };
        self.enter(DriverCall::Image(call), Answer::Done)
    }

    fn copy_tex_image(
        &mut self,
        target: GlEnum,
        level: i32,
        format: GlEnum,
        x: i32,
        y: i32,
        width: i32,
        height: i32,
    ) -> Result<Stored, DriverStop> {
        self.ready()?;
        let call = ImageDriver::CopyTexImage {
            target,
            level,
            format,
            x,
            y,
            width,
            height,
        };
        self.store(DriverCall::Image(call))
    }

    fn copy_tex_sub_image(
        &mut self,
        target: GlEnum,
        level: i32,
        xoffset: i32,
        yoffset: i32,
        x: i32,
        y: i32,
        width: i32,
        height: i32,
    ) -> Result<(), DriverStop> {
        self.ready()?;
        let copy = CopyPartWords {
            target,
            level,
            xoffset,
            yoffset,
            x,
            y,
            width,
            height,
        };
        let call = ImageDriver::CopyTexSubImage { copy };
        self.enter(DriverCall::Image(call), Answer::Done)
    }

    fn generate_mipmap(&mut self, target: GlEnum) -> Result<(), DriverStop> {
        self.ready()?;
        let call = ImageDriver::GenerateMipmap { target };
        self.enter(DriverCall::Image(call), Answer::Done)
    }

    fn renderbuffer_storage(
        &mut self,
        format: GlEnum,
        width: i32,
        height: i32,
    ) -> Result<Stored, DriverStop> {
        self.ready()?;
        let call = ImageDriver::RenderbufferStorage {
            format,
            width,
            height,
        };
        self.store(DriverCall::Image(call))
    }

    fn zero_renderbuffer(&mut self, name: u64) -> Result<(), DriverStop> {
        self.ready()?;
        let call = ImageDriver::ZeroRenderbuffer { name };
        self.enter(DriverCall::Image(call), Answer::Done)
    }

    fn read_pixels(
        &mut self,
        x: i32,
        y: i32,
        width: i32,
        height: i32,
    ) -> Result<Bytes, DriverStop> {
        self.ready()?;
        let count = read_count(natural(width), natural(height));
        let Ok(pixels) = self.next_pixels(count) else {
            return Err(self.stop());
        };
        let Ok(said) = self.next_pixels(count) else {
            return Err(self.stop());
        };
        let call = ImageDriver::ReadPixels {
            x,
            y,
            width,
            height,
        };
        match self.enter(DriverCall::Image(call), Answer::Pixels(pixels)) {
            Ok(()) => Ok(said),
            Err(stop) => Err(stop),
        }
    }

    fn create_shader(&mut self, kind: GlEnum) -> Result<u64, DriverStop> {
        self.ready()?;
        let next = self.next_program();
        let call = ProgramDriver::CreateShader { kind };
        self.give(DriverCall::Program(call), next)
    }

    fn create_program(&mut self) -> Result<u64, DriverStop> {
        self.ready()?;
        let next = self.next_program();
        self.give(DriverCall::Program(ProgramDriver::CreateProgram), next)
    }

    fn delete_shader(&mut self, name: u64) -> Result<(), DriverStop> {
        self.ready()?;
        let call = ProgramDriver::DeleteShader { name };
        self.enter(DriverCall::Program(call), Answer::Done)
    }

    fn delete_program(&mut self, name: u64) -> Result<(), DriverStop> {
        self.ready()?;
        let call = ProgramDriver::DeleteProgram { name };
        self.enter(DriverCall::Program(call), Answer::Done)
    }

    fn shader_source(&mut self, name: u64, bytes: &[u8]) -> Result<(), DriverStop> {
        self.ready()?;
        let Ok(bytes) = Bytes::from_slice(self.alloc, bytes) else {
            return Err(self.stop());
        };
        let call = ProgramDriver::ShaderSource { name, bytes };
        self.enter(DriverCall::Program(call), Answer::Done)
    }

    fn compile_shader(&mut self, name: u64) -> Result<(bool, Bytes), DriverStop> {
        self.ready()?;
        let Ok(Verdict { ok, log }) = self.next_compile() else {
            return Err(self.stop());
        };
        let Ok(said) = self.next_compile() else {
            return Err(self.stop());
        };
        let call = ProgramDriver::CompileShader { name };
        match self.enter(DriverCall::Program(call), Answer::Compile { ok, log }) {
            Ok(()) => Ok((said.ok, said.log)),
            Err(stop) => Err(stop),
        }
    }

    fn attach_shader(&mut self, program: u64, shader: u64) -> Result<(), DriverStop> {
        self.ready()?;
        let call = ProgramDriver::AttachShader { program, shader };
        self.enter(DriverCall::Program(call), Answer::Done)
    }

    fn detach_shader(&mut self, program: u64, shader: u64) -> Result<(), DriverStop> {
        self.ready()?;
        let call = ProgramDriver::DetachShader { program, shader };
        self.enter(DriverCall::Program(call), Answer::Done)
    }

    fn bind_attrib_location(
        &mut self,
        program: u64,
        index: u32,
        name: &[u8],
    ) -> Result<(), DriverStop> {
        self.ready()?;
        let Ok(name) = Bytes::from_slice(self.alloc, name) else {
            return Err(self.stop());
        };
        let call = ProgramDriver::BindAttribLocation {
            program,
            index,
            name,
        };
        self.enter(DriverCall::Program(call), Answer::Done)
    }

    fn link_program(&mut self, name: u64) -> Result<LinkAnswer, DriverStop> {
        self.ready()?;
        let Ok(answer) = self.next_link() else {
            return Err(self.stop());
        };
        let Ok(said) = self.next_link() else {
            return Err(self.stop());
        };
        let call = ProgramDriver::LinkProgram { name };
        match self.enter(DriverCall::Program(call), Answer::Link(answer)) {
            Ok(()) => Ok(said),
            Err(stop) => Err(stop),
        }
    }

    fn validate_program(&mut self, name: u64) -> Result<(bool, Bytes), DriverStop> {
        self.ready()?;
        let Ok(Verdict { ok, log }) = self.next_validation() else {
            return Err(self.stop());
        };
        let Ok(said) = self.next_validation() else {
            return Err(self.stop());
        };
        let call = ProgramDriver::ValidateProgram { name };
        match self.enter(DriverCall::Program(call), Answer::Validate { ok, log }) {
            Ok(()) => Ok((said.ok, said.log)),
            Err(stop) => Err(stop),
        }
    }

    fn use_program(&mut self, name: u64) -> Result<(), DriverStop> {
        self.ready()?;
        let call = ProgramDriver::UseProgram { name };
        self.enter(DriverCall::Program(call), Answer::Done)
    }

    fn uniform(
        &mut self,
        location: i32,
        kind: u32,
        count: i32,
        bytes: &[u8],
    ) -> Result<(), DriverStop> {
        self.ready()?;
        let Ok(bytes) = Bytes::from_slice(self.alloc, bytes) else {
            return Err(self.stop());
        };
        let call = ProgramDriver::Uniform {
            location,
            kind,
            count,
            bytes,
        };
        self.enter(DriverCall::Program(call), Answer::Done)
    }

    fn active_texture(&mut self, unit: u32) -> Result<(), DriverStop> {
        self.ready()?;
        let call = DrawDriver::ActiveTexture { unit };
        self.enter(DriverCall::Draw(call), Answer::Done)
    }

    fn set_raster(&mut self, number: u32, words: &[u32]) -> Result<(), DriverStop> {
        self.ready()?;
        let Ok(words) = Words::from_slice(self.alloc, words) else {
            return Err(self.stop());
        };
        let call = DrawDriver::SetRaster { number, words };
        self.enter(DriverCall::Draw(call), Answer::Done)
    }

    fn clear(&mut self, mask: u32) -> Result<(), DriverStop> {
        self.ready()?;
        let call = DrawDriver::Clear { mask };
        self.enter(DriverCall::Draw(call), Answer::Done)
    }

    fn draw_arrays(
        &mut self,
        mode: GlEnum,
        first: i32,
        count: i32,
        black: u32,
    ) -> Result<(), DriverStop> {
        self.ready()?;
        let call = DrawDriver::DrawArrays {
            mode,
            first,
            count,
            black,
        };
        self.enter(DriverCall::Draw(call), Answer::Done)
    }

    fn draw_elements(
        &mut self,
        mode: GlEnum,
        count: i32,
        kind: GlEnum,
        offset: u32,
        black: u32,
    ) -> Result<(), DriverStop> {
        self.ready()?;
        let call = DrawDriver::DrawElements {
            mode,
            count,
            kind,
            offset,
            black,
        };
        self.enter(DriverCall::Draw(call), Answer::Done)
    }

    ghost grown_itself = { continues_itself };

    ghost grown_further = { continues_further };
}
