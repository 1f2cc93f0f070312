//! One script on the happy path. The grammar's edges are rows of gles2_rows.
use crate::read_script;
use gl_plain::{Answer, Answers};
use std::process::Abort;
use std::test::Fail;

/// What the lines on compilations, links, validations and reads say.
fn check_answers(rt: &impl Abort, answers: &Answers) {
    assert_eq!(rt;
        (
            answers.compile.len(),
            answers.link.len(),
            answers.validate.len(),
            answers.pixels.len()
        ),
        (1, 2, 1, 2)
    );
    let Some(Answer::Compile { ok: false, log }) = answers.compile.get(0) else {
        panic!(rt; "no failed compilation");
    };
    assert_eq!(rt; log.as_slice(), b"no".as_slice());
    let Some(Answer::Link(link)) = answers.link.get(1) else {
        panic!(rt; "no link");
    };
    assert!(rt; link.ok);
    let attributes: [(&[u8], u32); 2] = [(b"pos", 14), (b"a", 13)];
    assert_eq!(rt; link.attributes.len(), attributes.len());
    for (attribute, (name, location)) in link.attributes.as_slice().iter().zip(attributes) {
        assert_eq!(rt; attribute.name.as_slice(), name);
        assert_eq!(rt; attribute.location, location);
    }
    let Some(uniform) = link.uniforms.get(0) else {
        panic!(rt; "no uniform");
    };
    assert_eq!(rt; uniform.name.as_slice(), b"m[0]".as_slice());
    assert_eq!(rt; uniform.size, 1024u32);
    let Some(Answer::Pixels(pixels)) = answers.pixels.get(0) else {
        panic!(rt; "no pixels");
    };
    assert_eq!(rt; pixels.as_slice(), [0u8, 255].as_slice());
}

#[test]
#[tactic(auto, using(crate::proofs::TextLines::few_lines))]
fn a_script_is_what_its_lines_say(rt: HostRuntime) -> Result<(), Fail> {
    let text =
        b"# all lines\nring 4\nregion 7 3\nsurface 2048 1\nbytes 0 0 01fF\nat 9 7 1 0a\nput 0xA\n\nbytes 7 1 Ab\nregion 1 0\nput 2\noom 3\nat 0x8 0 16 -\nlost 9\noom 0x0\ncompile fail 6e6F\nlink fail -\nlink ok 00\nattr pos FLOAT_VEC3 14\n\nattr a 0x1406 13\nuniform m[0] FLOAT_MAT4 1024\nvalidate ok -\npixels 00fF\npixels -";
    let script = read_script(rt.alloc(), text)?;
    assert_eq!(rt; script.surface, (2048, 1));
    assert_eq!(rt; script.entries, 4);
    assert_eq!(rt; script.puts.as_slice(), [10u32, 2].as_slice());
    assert_eq!(rt; script.answers.oom.as_slice(), [3u32, 0].as_slice());
    assert_eq!(rt; script.answers.lost, Some(9));
    let regions = [(7u32, 3u32), (1, 0)];
    assert_eq!(rt; script.regions.len(), regions.len());
    for (region, row) in script.regions.as_slice().iter().zip(regions) {
        assert_eq!(rt; (region.id, region.size), row);
    }
    let opening: [(u32, u32, &[u8]); 2] = [(0, 0, &[1, 255]), (7, 1, &[0xAB])];
    assert_eq!(rt; script.opening.len(), opening.len());
    for (patch, (region, offset, bytes)) in script.opening.as_slice().iter().zip(opening) {
        assert_eq!(rt; (patch.region, patch.offset), (region, offset));
        assert_eq!(rt; patch.bytes.as_slice(), bytes);
    }
    let timed: [(u32, u32, u32, &[u8]); 2] = [(9, 7, 1, &[10]), (8, 0, 16, &[])];
    assert_eq!(rt; script.timed.len(), timed.len());
    for (one, (copy, region, offset, bytes)) in script.timed.as_slice().iter().zip(timed) {
        assert_eq!(rt; (one.copy, one.region, one.offset), (copy, region, offset));
        assert_eq!(rt; one.bytes.as_slice(), bytes);
    }
    check_answers(&rt, &script.answers);
    Ok(())
}
