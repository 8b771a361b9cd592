// The program: takes a tile from standard input and prints what is in it, or where its fault is. The tile is checked first, so that a fault's line stands
// alone; then it is gone through layer by layer, and each piece is printed as soon as it is laid, since no list that we can lend holds the text of any tile.
// On a good tile no call of the reader refuses; where one did, the function would return.
#![tactic(auto)]

use opened::quoted::show_quoted;
use opened::values::show_value;
use opened::{Piece, show_feature, show_layer_end, show_layers, show_numbers};
use printed::{Text, first_bytes, first_words, show_refused};
use reader::entries::{ValueAt, next_key_at, next_value_at};
use reader::features::{FeatureHead, next_feature_at};
use reader::into::{geometry_into, tags_into};
use reader::layers::{LayerHead, next_layer_at};
use reader::parts::text_at;
use refusal::{Fault, Refusal};
use std::io;
use std::io::Write;
use tile_check::check;

// The bytes that a tile may have here: twice what the program `tiles` writes.
const MOST: usize = 262_144;

// How many bytes of a text, and how many numbers of a list, are laid at a time.
const PORTION: usize = 1_024;

// The kind of a value that is a text.
const TEXT: u32 = 1;

// ---- pieces
fn print<R: Print>(rt: &R, bytes: &[u8]) -> io::Result<()> {
    io::writer(rt).write_all(bytes)
}

fn print_refused<R: Print>(rt: &R, f: Fault) -> io::Result<()> {
    let mut text = [0u8; Text::REFUSED];
    let n = show_refused(refusal::number(f.refusal), f.place, &mut text);
    print(rt, first_bytes(&text, n))
}

fn print_layers<R: Print>(rt: &R, count: usize) -> io::Result<()> {
    let mut text = [0u8; Piece::LAYERS];
    let n = show_layers(count, &mut text);
    print(rt, first_bytes(&text, n))
}

fn print_escaped<R: Print>(rt: &R, bytes: &[u8], is_text: bool) -> io::Result<()> {
    let mut text = [0u8; Piece::BYTE * PORTION];
    let n = show_quoted(bytes, is_text, &mut text);
    print(rt, first_bytes(&text, n))
}

// A text in its quotes. Whether it is UTF-8 is asked of the whole, before it is divided.
fn print_quoted<R: Print>(rt: &R, bytes: &[u8]) -> io::Result<()> {
    let is_text = utf8::is_utf8(bytes);
    print(rt, b"\"")?;
    for portion in bytes.chunks(PORTION) {
        print_escaped(rt, portion, is_text)?;
    }
    print(rt, b"\"")
}

fn print_some<R: Print>(rt: &R, numbers: &[u32]) -> io::Result<()> {
    let mut text = [0u8; Piece::NUMBER * PORTION];
    let n = show_numbers(numbers, &mut text);
    print(rt, first_bytes(&text, n))
}

// The numbers of a list, which stand on one line.
fn print_numbers<R: Print>(rt: &R, numbers: &[u32]) -> io::Result<()> {
    for portion in numbers.chunks(PORTION) {
        print_some(rt, portion)?;
    }
    print(rt, b"\n")
}

// ---- a layer
fn print_head<R: Print>(rt: &R, src: &[u8], h: LayerHead) -> io::Result<()> {
    print(rt, b"layer ")?;
    print_quoted(rt, text_at(src, h.name.start, h.name.len))?;
    let mut text = [0u8; Piece::LAYER_END];
    let n = show_layer_end(h.version, h.extent, h.keys, h.values, h.features, &mut text);
    print(rt, first_bytes(&text, n))
}

fn print_keys<R: Print>(rt: &R, src: &[u8], h: LayerHead) -> io::Result<()> {
    let mut at = h.start;
    for _ in 0..h.keys {
        let Ok(Some(p)) = next_key_at(src, at, h.end) else {
            return Ok(());
        };
        print(rt, b"key ")?;
        print_quoted(rt, text_at(src, p.start, p.len))?;
        print(rt, b"\n")?;
        at = p.start + p.len;
    }
    Ok(())
}

fn print_value<R: Print>(rt: &R, src: &[u8], v: ValueAt) -> io::Result<()> {
    if v.kind == TEXT {
        print(rt, b"value text ")?;
        print_quoted(rt, text_at(src, v.text.start, v.text.len))?;
        return print(rt, b"\n");
    }
    let mut text = [0u8; Piece::VALUE];
    let n = show_value(v.kind, v.bits, &mut text);
    print(rt, first_bytes(&text, n))
}

fn print_values<R: Print>(rt: &R, src: &[u8], h: LayerHead) -> io::Result<()> {
    let mut at = h.start;
    for _ in 0..h.values {
        let Ok(Some(v)) = next_value_at(src, at, h.end) else {
            return Ok(());
        };
        print_value(rt, src, v)?;
        at = v.end;
    }
    Ok(())
}

// ---- a feature
fn print_feature_head<R: Print>(rt: &R, h: FeatureHead) -> io::Result<()> {
    let mut text = [0u8; Piece::FEATURE];
    let n = show_feature(h.kind, h.id, &mut text);
    print(rt, first_bytes(&text, n))
}

fn print_laid<R: Print>(rt: &R, laid: Result<usize, Fault>, list: &[u32]) -> io::Result<()> {
    let Ok(n) = laid else {
        return Ok(());
    };
    print_numbers(rt, first_words(list, n))
}

fn print_feature<R: Print>(rt: &R, src: &[u8], h: FeatureHead, list: &mut [u32]) -> io::Result<()> {
    print_feature_head(rt, h)?;
    print(rt, b"tags")?;
    let tags = tags_into(src, h.start, h.end, list);
    print_laid(rt, tags, list)?;
    print(rt, b"geometry")?;
    let words = geometry_into(src, h.start, h.end, list);
    print_laid(rt, words, list)
}

fn print_features<R: Print>(rt: &R, src: &[u8], h: LayerHead, list: &mut [u32]) -> io::Result<()> {
    let mut at = h.start;
    for _ in 0..h.features {
        let Ok(Some(f)) = next_feature_at(src, at, h.end) else {
            return Ok(());
        };
        print_feature(rt, src, f, list)?;
        at = f.end;
    }
    Ok(())
}

// ---- the tile
fn print_layer<R: Print>(rt: &R, src: &[u8], h: LayerHead, list: &mut [u32]) -> io::Result<()> {
    print_head(rt, src, h)?;
    print_keys(rt, src, h)?;
    print_values(rt, src, h)?;
    print_features(rt, src, h, list)
}

// A tile of so many layers. None of its features has more numbers than the tile has bytes.
fn print_tile<R: Print>(rt: &R, src: &[u8], layers: usize) -> io::Result<()> {
    let mut list = [0u32; MOST];
    print_layers(rt, layers)?;
    let mut at = 0;
    for _ in 0..layers {
        let Ok(Some(h)) = next_layer_at(src, at) else {
            return Ok(());
        };
        print_layer(rt, src, h, &mut list)?;
        at = h.end;
    }
    Ok(())
}

fn answer<R: Print>(rt: &R, src: &[u8]) -> io::Result<()> {
    if MOST < src.len() {
        let fault = Fault {
            refusal: Refusal::Job,
            place: 0,
        };
        return print_refused(rt, fault);
    }
    match check(src) {
        Ok(layers) => print_tile(rt, src, layers),
        Err(f) => print_refused(rt, f),
    }
}

// One byte more than a tile may have is read, so that a longer file is seen.
fn main(rt: HostRuntime) -> io::Result<()> {
    let mut file = [0u8; MOST + 1];
    let n = console::fill(&mut rt.stdin(), &mut file)?;
    answer(&rt, &file[..n])
}
