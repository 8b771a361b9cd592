// A tile script, run: operation after operation on a tile and on what is at hand. The bytes are the script's file, and the numbers the same file read as
// numbers; six lists are lent, four for the layer at hand and two for the tile.
ghost use Rattle.std.specs.Prelude.{◌≡◌};
ghost use Rattle.promise.specs.Lent.{mutable};
ghost use Rattle.promise.specs.Answers.{Gives};
ghost use Rattle.tile_run.specs.Hands.{said_handled};
ghost use Rattle.layer.specs.Lending.{entered};
ghost use Rattle.tile.specs.Tiles.{tile_entered, tile_left};
ghost use Rattle.tile.specs.Answers.{said_tile};
ghost use Rattle.tile_run.specs.Operations.{said_performed, working, added, adding};
ghost use Rattle.tile_run.specs.Lending.{Performs};

use crate::hand::{Hand, Handled};
use layer::Layer;
use refusal::{Refusal, Refused};
use script::Op;
use tile::{Added, Tile};

// A tile, and what is at hand.
#[derive(Clone, Copy)]
pub struct Work {
    pub tile: Tile,
    pub hand: Hand,
}

// What an operation leaves, or the refusal and what it was given.
pub(crate) type Performed = Result<Work, Refused<Work>>;

// What an operation on the hand answered, beside the tile.
fn keep(tile: Tile, h: Handled) -> Performed
    ensures { said_performed result ≡ working tile (said_handled h) }
{
    match h {
        Ok(hand) => Ok(Work { tile, hand }),
        Err(e) => Err(Refused {
            refusal: e.refusal,
            kept: Work { tile, hand: e.kept },
        }),
    }
}

// What adding a layer answered: an accepted layer is handed away, a refused one stays at hand.
fn after_adding(s: Layer, a: Added) -> Performed
    ensures { said_performed result ≡ added s (said_tile a) }
{
    match a {
        Ok(tile) => Ok(Work { tile, hand: None }),
        Err(e) => Err(Refused {
            refusal: e.refusal,
            kept: Work {
                tile: e.kept,
                hand: Some(s),
            },
        }),
    }
}

// Adds the layer at hand to the tile.
fn add(
    w: Work,
    keys: &[u32],
    values: &[u32],
    texts: &[u8],
    features: &[u32],
    names: &mut [u32],
    out: &mut [u8],
) -> Performed
    ensures { Gives (adding w (entered keys values texts features) (tile_entered (mutable names) (mutable out))) (said_performed result) (tile_left (mutable names) (mutable out)) }
{
    match w.hand {
        None => Err(Refused {
            refusal: Refusal::Turn,
            kept: w,
        }),
        Some(s) => after_adding(
            s,
            w.tile
                .add_layer(s, keys, values, texts, features, names, out),
        ),
    }
}

// Performs one operation.
pub(crate) fn perform(
    op: Op,
    w: Work,
    bytes: &[u8],
    numbers: &[u32],
    keys: &mut [u32],
    values: &mut [u32],
    texts: &mut [u8],
    features: &mut [u32],
    names: &mut [u32],
    out: &mut [u8],
) -> Performed
    ensures { Performs op w result bytes numbers (mutable keys) (mutable values) (mutable texts) (mutable features) (mutable names) (mutable out) }
{
    let tile = w.tile;
    let h = w.hand;
    match op {
        Op::Create(extent, name, strict) => {
            let text = script::text(bytes, name);
            keep(tile, crate::hand::create(h, strict, text, extent, texts))
        }
        Op::Open(kind, words) => {
            let run = script::words(numbers, words);
            keep(
                tile,
                crate::hand::open(h, kind, run, keys, values, texts, features),
            )
        }
        Op::SetId(id) => keep(
            tile,
            crate::hand::set_id(h, id, keys, values, texts, features),
        ),
        Op::Tag(key, v) => {
            let text = script::text(bytes, key);
            keep(
                tile,
                crate::hand::tag(h, text, v, bytes, keys, values, texts, features),
            )
        }
        Op::Close => keep(tile, crate::hand::close(h, keys, values, texts, features)),
        Op::Abandon => keep(tile, crate::hand::abandon(h, keys, values, texts, features)),
        Op::Add => add(w, keys, values, texts, features, names, out),
    }
}
