//! The check of the sides of a tetrahedron, and of lists that are not quite one.
use closing::{Leak, check_sides};
use geometry::{Point, Side, Triangle};

// As in castings, for the reason told there.
fn point(x: i32, y: i32, z: i32) -> Point {
    Point { x, y, z }
}

fn shelf() -> [Side; 12] {
    [Side::default(); 12]
}

fn tetrahedron() -> [Triangle; 4] {
    let a = point(0, 0, 0);
    let b = point(41, 0, 0);
    let c = point(0, 41, 0);
    let d = point(0, 0, 41);
    [
        Triangle {
            v0: a,
            v1: c,
            v2: b,
        },
        Triangle {
            v0: a,
            v1: b,
            v2: d,
        },
        Triangle {
            v0: a,
            v1: d,
            v2: c,
        },
        Triangle {
            v0: b,
            v1: c,
            v2: d,
        },
    ]
}

#[test]
fn a_tetrahedron_closes(rt: HostRuntime) {
    assert_eq!(rt; check_sides(&tetrahedron(), &mut shelf()), Ok(()));
}

#[test]
fn eleven_places_are_too_few(rt: HostRuntime) {
    let mut shelf = shelf();
    assert_eq!(rt;
        check_sides(&tetrahedron(), &mut shelf[0..11]),
        Err(Leak::ShortShelf)
    );
}

#[test]
fn without_a_face_a_side_is_odd(rt: HostRuntime) {
    let odd = Side {
        low: point(0, 0, 41),
        high: point(0, 41, 0),
    };
    assert_eq!(rt;
        check_sides(&tetrahedron()[0..3], &mut shelf()),
        Err(Leak::Odd(odd))
    );
}

// The corners of the second triangle are the same points, in another order.
#[test]
fn a_triangle_twice_closes(rt: HostRuntime) {
    let once = Triangle {
        v0: point(1, 2, 3),
        v1: point(4, 5, 6),
        v2: point(7, 8, 10),
    };
    let again = Triangle {
        v0: point(7, 8, 10),
        v1: point(4, 5, 6),
        v2: point(1, 2, 3),
    };
    assert_eq!(rt; check_sides(&[once, again], &mut shelf()), Ok(()));
}

#[test]
fn two_equal_corners_close(rt: HostRuntime) {
    let flat = Triangle {
        v0: point(1, 1, 1),
        v1: point(1, 1, 1),
        v2: point(2, 0, 0),
    };
    assert_eq!(rt; check_sides(&[flat], &mut shelf()), Ok(()));
}
