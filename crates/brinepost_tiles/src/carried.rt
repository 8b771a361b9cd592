// A layer and a tile as C carries them: the numbers of `Layer` and `Tile`. Whether a feature is open is a flag, and the figures at its opening stand behind
// it; what lies behind a flag of 0 is not looked at. Whether the layer is strict is a mark. A flag or a mark that is neither 0 nor 1 stands for a layer that
// breaks a rule, so every call refuses it as STATE, in the place that STATE has among its checks.
ghost use Rattle.std.specs.Prelude.{◌≡◌};
ghost use Rattle.brinepost_tiles.specs.Carried.{figures_of, figures_to, open_of, flag_to, since_to, mark_to, broken, layer_of, layer_to, no_layer, tile_of, tile_to};

use layer::{Figures, Layer};
use tile::Tile;

#[repr(C)]
#[derive(Clone, Copy)]
pub struct BpFigures {
    pub keys: usize,
    pub values: usize,
    pub texts: usize,
    pub features: usize,
}

#[repr(C)]
#[derive(Clone, Copy)]
pub struct BpLayer {
    pub extent: u32,
    pub is_open: u32,
    pub is_strict: u32,
    pub name: usize,
    pub used: BpFigures,
    pub since: BpFigures,
}

#[repr(C)]
#[derive(Clone, Copy)]
pub struct BpTile {
    pub extent: u32,
    pub used: usize,
    pub layers: usize,
}

fn figures_of(u: BpFigures) -> Figures
    ensures { result ≡ figures_of u }
{
    Figures {
        keys: u.keys,
        values: u.values,
        texts: u.texts,
        features: u.features,
    }
}

fn figures_to(u: Figures) -> BpFigures
    ensures { result ≡ figures_to u }
{
    BpFigures {
        keys: u.keys,
        values: u.values,
        texts: u.texts,
        features: u.features,
    }
}

fn open_of(flag: u32, o: BpFigures) -> Option<Figures>
    ensures { result ≡ open_of flag o }
{
    if flag == 0 {
        return None;
    }
    Some(figures_of(o))
}

fn flag_to(f: Option<Figures>) -> u32
    ensures { result ≡ flag_to f }
{
    match f {
        None => 0,
        Some(_) => 1,
    }
}

fn since_to(f: Option<Figures>) -> BpFigures
    ensures { result ≡ since_to f }
{
    match f {
        None => BpFigures {
            keys: 0,
            values: 0,
            texts: 0,
            features: 0,
        },
        Some(o) => figures_to(o),
    }
}

fn mark_to(strict: bool) -> u32
    ensures { result ≡ mark_to strict }
{
    if strict {
        return 1;
    }
    0
}

// A layer that breaks a rule of STATE, whatever lists are lent: its name runs past its texts.
fn broken_layer() -> Layer
    ensures { result ≡ broken }
{
    let none = Figures {
        keys: 0,
        values: 0,
        texts: 0,
        features: 0,
    };
    Layer {
        extent: 0,
        strict: false,
        name: 1,
        used: none,
        feature: None,
    }
}

// The layer that C carries; of a bad flag or mark it is the broken one. Both are asked by one test, so that an ordinary layer pays little for the mark.
pub(crate) fn layer_of(s: BpLayer) -> Layer
    ensures { result ≡ layer_of s }
{
    let flag = s.is_open;
    let mark = s.is_strict;
    if (1 < flag) | (1 < mark) {
        return broken_layer();
    }
    let used = figures_of(s.used);
    let feature = open_of(flag, s.since);
    Layer {
        extent: s.extent,
        strict: mark == 1,
        name: s.name,
        used,
        feature,
    }
}

// A layer as C is to carry it.
pub(crate) fn layer_to(s: Layer) -> BpLayer
    ensures { result ≡ layer_to s }
{
    let flag = flag_to(s.feature);
    let mark = mark_to(s.strict);
    let since = since_to(s.feature);
    let used = figures_to(s.used);
    BpLayer {
        extent: s.extent,
        is_open: flag,
        is_strict: mark,
        name: s.name,
        used,
        since,
    }
}

// What a refused `new` gives in place of a layer: every call refuses it as STATE.
pub(crate) fn no_layer() -> BpLayer
    ensures { result ≡ no_layer }
{
    layer_to(broken_layer())
}

pub(crate) fn tile_of(t: BpTile) -> Tile
    ensures { result ≡ tile_of t }
{
    Tile {
        extent: t.extent,
        used: t.used,
        layers: t.layers,
    }
}

pub(crate) fn tile_to(t: Tile) -> BpTile
    ensures { result ≡ tile_to t }
{
    BpTile {
        extent: t.extent,
        used: t.used,
        layers: t.layers,
    }
}
