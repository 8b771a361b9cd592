// Surveyed points, from C: doubles, with the six coefficients of the map that takes them to the grid. There they go on as grid points do, to the encoder's
// call and to the whole job.
ghost use Rattle.std.specs.Prelude.{◌≡◌};
ghost use Rattle.promise.specs.Answers.{Gives};
ghost use Rattle.affine.specs.Mapping.{said_mapped, mapped};
ghost use Rattle.brinepost.specs.Surveyed.{map_of, flat_mapped, surveyed_from, survey_from};

use crate::calls::BpDrawn;
use crate::state::BpEncoder;
use crate::work::BpJob;
use affine::Affine;
use clip::{BBox, Pt};
use refusal::Refusal;

// The grid's x is a·x + b·y + c, its y is d·x + e·y + f.
#[repr(C)]
#[derive(Clone, Copy)]
pub struct BpAffine {
    pub a: f64,
    pub b: f64,
    pub c: f64,
    pub d: f64,
    pub e: f64,
    pub f: f64,
}

#[repr(C)]
#[derive(Clone, Copy)]
pub struct BpMapped {
    pub refusal: u32,
    pub x: i32,
    pub y: i32,
}

// The map that C's six numbers stand for.
fn map_of(m: BpAffine) -> Affine
    ensures { result ≡ map_of m }
{
    Affine {
        a: m.a,
        b: m.b,
        c: m.c,
        d: m.d,
        e: m.e,
        f: m.f,
    }
}

fn answered(r: Result<Pt, Refusal>) -> BpMapped
    ensures { result ≡ flat_mapped (said_mapped r) }
{
    match r {
        Ok(p) => BpMapped {
            refusal: 0,
            x: p.x,
            y: p.y,
        },
        Err(k) => BpMapped {
            refusal: refusal::number(k),
            x: 0,
            y: 0,
        },
    }
}

// COORD, else the grid point.
#[unsafe(no_mangle)]
pub extern "C" fn bp_map_point(map: BpAffine, x: f64, y: f64) -> BpMapped
    ensures { result ≡ flat_mapped (mapped (map_of map) x y) }
{
    let m = map_of(map);
    answered(m.map_point(x, y))
}

// STATE, COORD, ROOM, else the words of the grid point behind those that are used.
#[unsafe(no_mangle)]
pub extern "C" fn bp_encoder_add_surveyed(
    given: BpEncoder,
    map: BpAffine,
    x: f64,
    y: f64,
    words: &mut [u32],
) -> BpDrawn
    ensures { Gives (surveyed_from given map x y words.old) result words.new }
{
    if !crate::state::are_flags(given) {
        return crate::calls::refused(given, Refusal::State);
    }
    let s = crate::state::state_of(given);
    let m = map_of(map);
    let r = survey_job::add_surveyed(s, m, x, y, words);
    crate::calls::answered(given, r)
}

// The whole job of the grid points: JOB, KIND, BOX, then the calls; at the first refused one its number and the accepted points, the words as the accepted
// calls left them.
#[unsafe(no_mangle)]
pub extern "C" fn bp_encode_survey(
    kind: u32,
    left: i32,
    right: i32,
    bottom: i32,
    top: i32,
    map: BpAffine,
    points: &[f64],
    ends: &[u32],
    words: &mut [u32],
) -> BpJob
    ensures { Gives (survey_from kind left right bottom top map points.now ends.now words.old) result words.new }
{
    let bbox = BBox {
        x_min: left,
        x_max: right,
        y_min: bottom,
        y_max: top,
    };
    let m = map_of(map);
    let r = survey_job::encode(kind, bbox, m, points, ends, words);
    crate::work::answered(r, points.len() / 2)
}
