// The structs of the answers, made from what the proved functions answer.
ghost use Rattle.std.specs.Prelude.{◌≡◌};
ghost use Rattle.layer.specs.Answers.{said_changed, said_created, said_counted, said_named};
ghost use Rattle.layer.specs.Many.{said_added};
ghost use Rattle.tile.specs.Answers.{said_tile, said_counted as saidTileCounted};
ghost use Rattle.brinepost_tiles.specs.Answers.{flat_created, flat_changed, layer_after, flat_many, flat_counted, flat_named, flat_tile, flat_tile_counted};

use crate::carried::{BpLayer, BpTile, layer_to, no_layer, tile_to};
use layer::{Changed, Layer};
use refusal::{Refusal, Refused};
use table::Text;
use tile::Added;

#[repr(C)]
#[derive(Clone, Copy)]
pub struct BpChanged {
    pub refusal: u32,
    pub layer: BpLayer,
}

#[repr(C)]
#[derive(Clone, Copy)]
pub struct BpMany {
    pub refusal: u32,
    pub layer: BpLayer,
    pub count: usize,
}

#[repr(C)]
#[derive(Clone, Copy)]
pub struct BpCounted {
    pub refusal: u32,
    pub count: usize,
}

#[repr(C)]
#[derive(Clone, Copy)]
pub struct BpNamed {
    pub refusal: u32,
    pub start: usize,
    pub len: usize,
}

#[repr(C)]
#[derive(Clone, Copy)]
pub struct BpAdded {
    pub refusal: u32,
    pub tile: BpTile,
}

pub(crate) fn created(r: Result<Layer, Refusal>) -> BpChanged
    ensures { result ≡ flat_created (said_created r) }
{
    match r {
        Ok(s) => BpChanged {
            refusal: 0,
            layer: layer_to(s),
        },
        Err(k) => BpChanged {
            refusal: refusal::number(k),
            layer: no_layer(),
        },
    }
}

// A refused call has given its layer back, and C has it as it was given, whatever lay behind a flag of 0.
pub(crate) fn changed(given: BpLayer, r: Changed) -> BpChanged
    ensures { result ≡ flat_changed given (said_changed r) }
{
    match r {
        Ok(s) => BpChanged {
            refusal: 0,
            layer: layer_to(s),
        },
        Err(e) => BpChanged {
            refusal: refusal::number(e.refusal),
            layer: given,
        },
    }
}

// Where no feature was accepted, C has its layer as it was given.
fn layer_after(given: BpLayer, s: Layer, n: usize) -> BpLayer
    ensures { result ≡ layer_after given s n }
{
    if n == 0 {
        return given;
    }
    layer_to(s)
}

pub(crate) fn many_added(given: BpLayer, r: layer::many::Added) -> BpMany
    ensures { result ≡ flat_many given (said_added r) }
{
    match r {
        Ok((s, n)) => BpMany {
            refusal: 0,
            layer: layer_after(given, s, n),
            count: n,
        },
        Err(e) => BpMany {
            refusal: refusal::number(e.refusal),
            layer: layer_after(given, e.kept.0, e.kept.1),
            count: e.kept.1,
        },
    }
}

pub(crate) fn counted(r: Result<usize, Refused<Layer>>) -> BpCounted
    ensures { result ≡ flat_counted (said_counted r) }
{
    match r {
        Ok(n) => BpCounted {
            refusal: 0,
            count: n,
        },
        Err(e) => BpCounted {
            refusal: refusal::number(e.refusal),
            count: 0,
        },
    }
}

pub(crate) fn named(r: Result<Text, Refused<Layer>>) -> BpNamed
    ensures { result ≡ flat_named (said_named r) }
{
    match r {
        Ok(t) => BpNamed {
            refusal: 0,
            start: t.start,
            len: t.len,
        },
        Err(e) => BpNamed {
            refusal: refusal::number(e.refusal),
            start: 0,
            len: 0,
        },
    }
}

pub(crate) fn added(r: Added) -> BpAdded
    ensures { result ≡ flat_tile (said_tile r) }
{
    match r {
        Ok(t) => BpAdded {
            refusal: 0,
            tile: tile_to(t),
        },
        Err(e) => BpAdded {
            refusal: refusal::number(e.refusal),
            tile: tile_to(e.kept),
        },
    }
}

pub(crate) fn tile_counted(r: tile::Counted) -> BpCounted
    ensures { result ≡ flat_tile_counted (saidTileCounted r) }
{
    match r {
        Ok(n) => BpCounted {
            refusal: 0,
            count: n,
        },
        Err(e) => BpCounted {
            refusal: refusal::number(e.refusal),
            count: 0,
        },
    }
}
