//! Names and attachments, each call that may fail on its happy path. What needs an object that is there is pinned by its clauses, and runs in rows.
use crate::{Framebuffers, Renderbuffers, Targets};
use gl_base::enums::FRAMEBUFFER_COMPLETE;
use gl_base::target_enums::{COLOR_ATTACHMENT0, DEPTH_ATTACHMENT};
use gl_plain::{AnyImage, AttachView, Attached, Target};
use std::test::*;

#[test]
fn a_deleted_renderbuffer_is_not_bound(rt: HostRuntime) -> Result<(), Fail> {
    let mut targets = Targets::new(rt.alloc());
    assert!(rt; !targets.is_renderbuffer_over_limit(65_536));
    assert!(rt; targets.is_renderbuffer_over_limit(65_537));
    assert!(rt; targets.add_renderbuffer(7, 1).is_ok());
    assert!(rt; targets.add_renderbuffer(7, 2).is_err());
    let name = targets.renderbuffer_name(7).ok_or("7 is not in use")?;
    assert_eq!(rt; targets.attach_view(1), AttachView::Dead);
    targets.bind_renderbuffer(7, name)?;
    assert_eq!(rt; targets.renderbuffer_bound(), 1);
    assert_eq!(rt; targets.storage(1), None);
    targets.delete_renderbuffer(7);
    assert_eq!(rt; targets.renderbuffer_bound(), 0);
    targets.unbind_renderbuffer();
    Ok(())
}

#[test]
fn an_attachment_outlives_its_object(rt: HostRuntime) -> Result<(), Fail> {
    let mut targets = Targets::new(rt.alloc());
    assert!(rt; !targets.is_framebuffer_over_limit(65_536));
    assert!(rt; targets.is_framebuffer_over_limit(65_537));
    assert!(rt; targets.add_renderbuffer(7, 1).is_ok());
    let name = targets.renderbuffer_name(7).ok_or("7 is not in use")?;
    targets.bind_renderbuffer(7, name)?;
    assert!(rt; targets.add_framebuffer(3, 5).is_ok());
    let name = targets.framebuffer_name(3).ok_or("3 is not in use")?;
    targets.bind_framebuffer(3, name)?;
    assert_eq!(rt; targets.framebuffer_bound(), 5);
    targets.attach(
        COLOR_ATTACHMENT0,
        Attached::Renderbuffer { object: 1, name: 7 },
    );
    targets.detach_texture(1);
    targets.unbind_framebuffer();
    assert_eq!(rt; targets.target(), Target::Default);
    targets.delete_renderbuffer(7);
    let name = targets.framebuffer_name(3).ok_or("3 is not in use")?;
    targets.bind_framebuffer(3, name)?;
    let dead = Target::Bound {
        colour: Some(AnyImage::Renderbuffer(1)),
        depth: None,
        stencil: None,
    };
    assert_eq!(rt; targets.target(), dead);
    assert_eq!(rt; targets.attach_view(1), AttachView::Dead);
    targets.delete_framebuffer(3);
    assert_eq!(rt; targets.target(), Target::Default);
    Ok(())
}

#[test]
fn framebuffers_are_known_by_names(rt: HostRuntime) -> Result<(), Fail> {
    let mut framebuffers = Framebuffers::new(rt.alloc());
    let image = Attached::Renderbuffer { object: 1, name: 7 };
    assert!(rt; framebuffers.add_name(3, 5).is_ok());
    assert!(rt; !framebuffers.is_over_limit(65_535) && framebuffers.is_over_limit(65_536));
    assert!(rt; !framebuffers.attach(3, DEPTH_ATTACHMENT, image));
    let name = framebuffers.name(3).ok_or("3 is not in use")?;
    framebuffers.bind(3, name)?;
    assert!(rt; framebuffers.attach(3, DEPTH_ATTACHMENT, image));
    framebuffers.detach_all(0, false, 1);
    framebuffers.detach_all(3, true, 1);
    let views = [AttachView::Nothing, AttachView::Dead, AttachView::Nothing];
    assert_eq!(rt; framebuffers.status(0, &views), FRAMEBUFFER_COMPLETE);
    framebuffers.detach_all(3, false, 1);
    framebuffers.unbind();
    assert_eq!(rt; framebuffers.bound(), 0);
    framebuffers.delete(3);
    assert!(rt; !framebuffers.attach(3, DEPTH_ATTACHMENT, image));
    Ok(())
}

#[test]
fn renderbuffers_alone(rt: HostRuntime) -> Result<(), Fail> {
    let mut renderbuffers = Renderbuffers::new(rt.alloc());
    assert!(rt; renderbuffers.add_name(7, 1).is_ok());
    assert!(rt; !renderbuffers.is_over_limit(65_535) && renderbuffers.is_over_limit(65_536));
    let name = renderbuffers.name(7).ok_or("7 is not in use")?;
    renderbuffers.bind(7, name)?;
    assert_eq!(rt; renderbuffers.bound(), 1);
    renderbuffers.unbind();
    assert!(rt; renderbuffers.delete(7).is_some() && renderbuffers.delete(7).is_none());
    assert_eq!(rt; renderbuffers.attach_view(1), AttachView::Dead);
    Ok(())
}
