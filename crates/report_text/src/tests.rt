//! Lines of each kind. The other rows are shown by whole runs.
use super::*;
use gl_base::enums::{ARRAY_BUFFER, INVALID_VALUE, STATIC_DRAW, UNSIGNED_BYTE};
use gl_base::target_enums::{COLOR_ATTACHMENT0, RGB565};
use gl_base::texture_enums::{RGBA, TEXTURE_2D};
use gl_base::{GlEnum, Rect};
use gl_plain::{
    Answer, AttributeList, Bytes, CopyPartWords, DrawDriver, DriverCall, DriverEntry, ImageDriver,
    ImagePlace, LinkAnswer, Names, ObjectDriver, Payload, ProgramDriver, Reply, UniformList, Words,
};
use std::alloc::{AllocError, Global};
use std::process::Abort;
use std::test::Fail;

fn check_line(rt: &impl Abort, line: Bytes, wanted: &str) {
    assert_eq!(rt; line.as_slice(), wanted.as_bytes());
}

fn line_of(
    alloc: Global,
    number: u64,
    call: ObjectDriver,
    answer: Answer,
) -> Result<Bytes, AllocError> {
    let entry = DriverEntry {
        call: DriverCall::Object(call),
        answer,
    };
    journal_line(alloc, number, &entry)
}

#[test]
fn calls_have_lines(rt: HostRuntime) -> Result<(), Fail> {
    let alloc = rt.alloc();
    let line = line_of(alloc, u64::MAX, ObjectDriver::GenBuffer, Answer::Name(7))?;
    check_line(&rt, line, "driver 18446744073709551615 gen_buffer -> 7\n");
    let store = ObjectDriver::BufferData {
        target: ARRAY_BUFFER,
        bytes: Bytes::zeros(alloc, 33)?,
        usage: STATIC_DRAW,
    };
    check_line(
        &rt,
        line_of(alloc, 0, store, Answer::Oom)?,
        "driver 0 buffer_data 0x8892 33:0000000000000000000000000000000000000000000000000000000000000000+ 0x88E4 -> oom\n",
    );
    let constant = ObjectDriver::VertexAttrib4 {
        index: 5,
        values: [0x7F80_0000, 0, 0x0C6D_EA3D, u32::MAX],
    };
    check_line(
        &rt,
        line_of(alloc, 1, constant, Answer::Done)?,
        "driver 1 vertex_attrib_4 5 0x7F800000 0x00000000 0x0C6DEA3D 0xFFFFFFFF\n",
    );
    let pointer = ObjectDriver::VertexAttribPointer {
        index: 0,
        size: i32::MIN,
        kind: GlEnum(0x1_0AB0),
        normalized: true,
        stride: 3,
        offset: 4,
    };
    check_line(
        &rt,
        line_of(alloc, 2, pointer, Answer::Done)?,
        "driver 2 vertex_attrib_pointer 0 -2147483648 0x10AB0 1 3 4\n",
    );
    Ok(())
}

#[test]
fn calls_on_programs_have_lines(rt: HostRuntime) -> Result<(), Fail> {
    let alloc = rt.alloc();
    let set = DriverEntry {
        call: DriverCall::Program(ProgramDriver::Uniform {
            location: -2,
            kind: 11,
            count: -1,
            bytes: Bytes::from_slice(alloc, &[0, 0xAB])?,
        }),
        answer: Answer::Done,
    };
    let line = journal_line(alloc, 3, &set)?;
    check_line(&rt, line, "driver 3 uniform -2 11 -1 2:00ab\n");
    let linked = DriverEntry {
        call: DriverCall::Program(ProgramDriver::LinkProgram { name: 7 }),
        answer: Answer::Link(LinkAnswer {
            ok: false,
            log: Bytes::zeros(alloc, 2)?,
            attributes: AttributeList::new(alloc),
            uniforms: UniformList::new(alloc),
        }),
    };
    let line = journal_line(alloc, 4, &linked)?;
    check_line(&rt, line, "driver 4 link_program 7 -> fail\n");
    Ok(())
}

#[test]
fn calls_that_set_and_draw_have_lines(rt: HostRuntime) -> Result<(), Fail> {
    let alloc = rt.alloc();
    let set = DriverEntry {
        call: DriverCall::Draw(DrawDriver::SetRaster {
            number: 298,
            words: Words::from_slice(alloc, &[0xBE2, u32::MAX])?,
        }),
        answer: Answer::Done,
    };
    let line = journal_line(alloc, 5, &set)?;
    check_line(&rt, line, "driver 5 set_raster 298 0x00000BE2 0xFFFFFFFF\n");
    let draw = DriverEntry {
        call: DriverCall::Draw(DrawDriver::DrawElements {
            mode: GlEnum(4),
            count: 3,
            kind: UNSIGNED_BYTE,
            offset: 7,
            black: 128,
        }),
        answer: Answer::Done,
    };
    let line = journal_line(alloc, 6, &draw)?;
    check_line(&rt, line, "driver 6 draw_elements 0x0004 3 0x1401 7 128\n");
    Ok(())
}

fn image_line(
    alloc: Global,
    number: u64,
    call: ImageDriver,
    answer: Answer,
) -> Result<Bytes, AllocError> {
    let entry = DriverEntry {
        call: DriverCall::Image(call),
        answer,
    };
    journal_line(alloc, number, &entry)
}

#[test]
fn calls_on_images_have_lines(rt: HostRuntime) -> Result<(), Fail> {
    let alloc = rt.alloc();
    let image = ImageDriver::TexImage {
        target: TEXTURE_2D,
        level: 0,
        format: RGBA,
        kind: UNSIGNED_BYTE,
        width: 1,
        height: 1,
        payload: Payload::Here(Bytes::from_slice(alloc, &[1, 2, 3, 4])?),
    };
    let line = image_line(alloc, 2, image, Answer::Done)?;
    check_line(
        &rt,
        line,
        "driver 2 tex_image 0x0DE1 0 0x1908 0x1401 1 1 4:01020304\n",
    );
    let without_room = ImageDriver::TexImage {
        target: TEXTURE_2D,
        level: 11,
        format: RGBA,
        kind: UNSIGNED_BYTE,
        width: 0,
        height: 2048,
        payload: Payload::Absent,
    };
    let line = image_line(alloc, 3, without_room, Answer::Oom)?;
    check_line(
        &rt,
        line,
        "driver 3 tex_image 0x0DE1 11 0x1908 0x1401 0 2048 none -> oom\n",
    );
    let zeroing = ImageDriver::ZeroLevel {
        place: ImagePlace {
            texture: 1,
            face: TEXTURE_2D,
            level: 0,
        },
        rect: Rect {
            x: 0,
            y: 0,
            width: 2,
            height: 2,
        },
    };
    let line = image_line(alloc, 13, zeroing, Answer::Done)?;
    check_line(&rt, line, "driver 13 zero_level 1 0x0DE1 0 0 0 2 2\n");
    Ok(())
}

#[test]
fn calls_on_targets_have_lines(rt: HostRuntime) -> Result<(), Fail> {
    let alloc = rt.alloc();
    let line = line_of(alloc, 1, ObjectDriver::GenRenderbuffer, Answer::Name(3))?;
    check_line(&rt, line, "driver 1 gen_renderbuffer -> 3\n");
    let bind = ObjectDriver::BindFramebuffer { name: 9 };
    let line = line_of(alloc, 2, bind, Answer::Done)?;
    check_line(&rt, line, "driver 2 bind_framebuffer 9\n");
    let attach = ObjectDriver::FramebufferTexture {
        attachment: COLOR_ATTACHMENT0,
        textarget: TEXTURE_2D,
        name: 7,
    };
    let line = line_of(alloc, 3, attach, Answer::Done)?;
    check_line(&rt, line, "driver 3 framebuffer_texture 0x8CE0 0x0DE1 7\n");
    let detach = ObjectDriver::FramebufferRenderbuffer {
        attachment: COLOR_ATTACHMENT0,
        name: 0,
    };
    let line = line_of(alloc, 4, detach, Answer::Done)?;
    check_line(&rt, line, "driver 4 framebuffer_renderbuffer 0x8CE0 0\n");
    let storage = ImageDriver::RenderbufferStorage {
        format: RGB565,
        width: 5,
        height: 6,
    };
    let line = image_line(alloc, 5, storage, Answer::Oom)?;
    check_line(
        &rt,
        line,
        "driver 5 renderbuffer_storage 0x8D62 5 6 -> oom\n",
    );
    let zeroing = ImageDriver::ZeroRenderbuffer { name: 3 };
    let line = image_line(alloc, 6, zeroing, Answer::Done)?;
    check_line(&rt, line, "driver 6 zero_renderbuffer 3\n");
    Ok(())
}

#[test]
fn copies_and_reads_have_lines(rt: HostRuntime) -> Result<(), Fail> {
    let alloc = rt.alloc();
    let copy = ImageDriver::CopyTexImage {
        target: TEXTURE_2D,
        level: 1,
        format: RGBA,
        x: -2,
        y: 3,
        width: 4,
        height: 5,
    };
    let line = image_line(alloc, 7, copy, Answer::Done)?;
    check_line(
        &rt,
        line,
        "driver 7 copy_tex_image 0x0DE1 1 0x1908 -2 3 4 5\n",
    );
    let copy = ImageDriver::CopyTexSubImage {
        copy: CopyPartWords {
            target: TEXTURE_2D,
            level: 0,
            xoffset: 1,
            yoffset: 2,
            x: -3,
            y: i32::MIN,
            width: 5,
            height: 6,
        },
    };
    let line = image_line(alloc, 8, copy, Answer::Done)?;
    check_line(
        &rt,
        line,
        "driver 8 copy_tex_sub_image 0x0DE1 0 1 2 -3 -2147483648 5 6\n",
    );
    let mipmap = ImageDriver::GenerateMipmap { target: TEXTURE_2D };
    let line = image_line(alloc, 9, mipmap, Answer::Done)?;
    check_line(&rt, line, "driver 9 generate_mipmap 0x0DE1\n");
    let read = ImageDriver::ReadPixels {
        x: 0,
        y: 0,
        width: 1,
        height: 1,
    };
    let pixels = Bytes::from_slice(alloc, &[0, 0xFF, 0, 0xFF])?;
    let line = image_line(alloc, 0, read, Answer::Pixels(pixels))?;
    check_line(&rt, line, "driver 0 read_pixels 0 0 1 1 -> 4:00ff00ff\n");
    let read = ImageDriver::ReadPixels {
        x: -1,
        y: 0,
        width: 0,
        height: 1,
    };
    let line = image_line(alloc, 10, read, Answer::Pixels(Bytes::new(alloc)))?;
    check_line(&rt, line, "driver 10 read_pixels -1 0 0 1 -> 0:-\n");
    Ok(())
}

#[test]
fn replies_and_ends_have_lines(rt: HostRuntime) -> Result<(), Fail> {
    let alloc = rt.alloc();
    let names = Reply::Names(Names::from_slice(alloc, &[7, 0])?);
    check_line(&rt, reply_line(alloc, 3, &names)?, "reply 3 names 7 0\n");
    check_line(
        &rt,
        reply_line(alloc, 6, &Reply::Word(u32::MAX))?,
        "reply 6 word 4294967295\n",
    );
    let bytes = Reply::Bytes(Bytes::new(alloc));
    check_line(&rt, reply_line(alloc, 7, &bytes)?, "reply 7 bytes 0:-\n");
    let error = Reply::Error(INVALID_VALUE);
    check_line(
        &rt,
        reply_line(alloc, 4, &error)?,
        "reply 4 error INVALID_VALUE\n",
    );
    check_line(&rt, reply_line(alloc, 5, &Reply::None)?, "");
    check_line(&rt, end_line(alloc, &End::BadLine(1))?, "bad line 1\n");
    assert_eq!(rt; End::BadLine(1).status(), 3);
    Ok(())
}
