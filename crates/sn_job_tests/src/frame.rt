//! Tables of frames.
use sn_frame::{Frame, FrameFault};
use sn_geom::{Pt3, Um};
use std::test::Fail;

const UP: [i32; 3] = [0, 0, 1000];

const PLUS_X: [i32; 3] = [1000, 0, 0];

/// The axis and the reference direction of each frame at the origin, and where it puts (2000, 1000, 5).
const FRAMES: [([i32; 3], [i32; 3], [i32; 3]); 24] = [
    ([1000, 0, 0], [0, 1000, 0], [5, 2000, 1000]),
    ([1000, 0, 0], [0, -1000, 0], [5, -2000, -1000]),
    ([1000, 0, 0], [0, 0, 1000], [5, -1000, 2000]),
    ([1000, 0, 0], [0, 0, -1000], [5, 1000, -2000]),
    ([-1000, 0, 0], [0, 1000, 0], [-5, 2000, -1000]),
    ([-1000, 0, 0], [0, -1000, 0], [-5, -2000, 1000]),
    ([-1000, 0, 0], [0, 0, 1000], [-5, 1000, 2000]),
    ([-1000, 0, 0], [0, 0, -1000], [-5, -1000, -2000]),
    ([0, 1000, 0], [1000, 0, 0], [2000, 5, -1000]),
    ([0, 1000, 0], [-1000, 0, 0], [-2000, 5, 1000]),
    ([0, 1000, 0], [0, 0, 1000], [1000, 5, 2000]),
    ([0, 1000, 0], [0, 0, -1000], [-1000, 5, -2000]),
    ([0, -1000, 0], [1000, 0, 0], [2000, -5, 1000]),
    ([0, -1000, 0], [-1000, 0, 0], [-2000, -5, -1000]),
    ([0, -1000, 0], [0, 0, 1000], [-1000, -5, 2000]),
    ([0, -1000, 0], [0, 0, -1000], [1000, -5, -2000]),
    ([0, 0, 1000], [1000, 0, 0], [2000, 1000, 5]),
    ([0, 0, 1000], [-1000, 0, 0], [-2000, -1000, 5]),
    ([0, 0, 1000], [0, 1000, 0], [-1000, 2000, 5]),
    ([0, 0, 1000], [0, -1000, 0], [1000, -2000, 5]),
    ([0, 0, -1000], [1000, 0, 0], [2000, -1000, -5]),
    ([0, 0, -1000], [-1000, 0, 0], [-2000, 1000, -5]),
    ([0, 0, -1000], [0, 1000, 0], [1000, 2000, -5]),
    ([0, 0, -1000], [0, -1000, 0], [-1000, -2000, -5]),
];

/// Directions that are no axis, and pairs of axes on one line.
const SKEW: [([i32; 3], [i32; 3]); 7] = [
    ([0, 0, 1000], [0, 0, -1000]),
    ([0, 0, 1000], [0, 0, 1]),
    ([-1000, 0, 0], [-1000, 0, 0]),
    ([0, 0, 0], [1000, 0, 0]),
    ([0, 0, 1000], [0, 0, 0]),
    ([0, 1, 1000], [1000, 0, 0]),
    ([0, 0, 1000], [707, -707, 0]),
];

fn point(coordinates: [i32; 3]) -> Option<Pt3> {
    let [x, y, z] = coordinates;
    Some(Pt3 {
        x: Um::new(x)?,
        y: Um::new(y)?,
        z: Um::new(z)?,
    })
}

fn at_origin(axis: [i32; 3], reference: [i32; 3]) -> Result<Frame, FrameFault> {
    Frame::from_axes(9, Frame::identity().origin(), axis, reference)
}

#[test]
fn frames_of_placements(rt: HostRuntime) -> Result<(), Fail> {
    let p = point([2000, 1000, 5]).ok_or("p")?;
    for (axis, reference, image) in FRAMES {
        let frame = at_origin(axis, reference)?;
        let q = frame.apply(&p, 9)?;
        assert_eq!(rt; Some(q), point(image), "{axis:?} {reference:?}");
        assert_eq!(rt; frame.is_upright(), axis == UP, "{axis:?} {reference:?}");
    }
    for (axis, reference) in SKEW {
        let fault = at_origin(axis, reference).err();
        assert_eq!(rt; fault, Some(FrameFault::Skew(9)), "{axis:?} {reference:?}");
    }
    Ok(())
}

#[test]
fn the_range(rt: HostRuntime) -> Result<(), Fail> {
    let far = point([19_990_000, -5, 0]).ok_or("far")?;
    let frame = Frame::from_axes(9, far, UP, PLUS_X)?;
    assert_eq!(rt; frame.origin(), far);
    assert_eq!(rt; Frame::identity().compose(&frame, 8)?.origin(), far);
    let step = point([10_000, 5, -20_000_000]).ok_or("step")?;
    assert_eq!(rt;
        Some(frame.apply(&step, 9)?),
        point([20_000_000, 0, -20_000_000])
    );
    let long_step = point([10_001, 5, -20_000_000]).ok_or("long step")?;
    assert_eq!(rt; frame.apply(&long_step, 9), Err(FrameFault::OutOfRange(9)));
    assert_eq!(rt;
        frame.compose(&frame, 8).err(),
        Some(FrameFault::OutOfRange(8))
    );
    Ok(())
}
