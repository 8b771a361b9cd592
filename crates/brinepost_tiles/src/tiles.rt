// The calls on a tile, from C: the tile goes in and comes back by value, its layers' names and its bytes stand in two lent lists.
ghost use Rattle.std.specs.Prelude.{◌≡◌};
ghost use Rattle.promise.specs.Lent.{mutable};
ghost use Rattle.promise.specs.Answers.{Gives};
ghost use Rattle.layer.specs.Lending.{entered};
ghost use Rattle.layer.specs.Calls.{created, created_strict};
ghost use Rattle.tile.specs.Tiles.{tile_entered, tile_left, fresh_tile};
ghost use Rattle.tile.specs.Asking.{layer_size, num_layers, compute_size, to_bytes};
ghost use Rattle.telling.specs.Telling.{told};
ghost use Rattle.brinepost_tiles.specs.Carried.{tile_of, tile_to};
ghost use Rattle.brinepost_tiles.specs.Answers.{flat_created, flat_tile_counted};
ghost use Rattle.brinepost_tiles.specs.Calls.{seen_from, added_from};

use crate::answers::{BpAdded, BpChanged, BpCounted, added, tile_counted};
use crate::carried::{BpLayer, BpTile, layer_of, tile_of, tile_to};
use tile::Tile;

// A tile without layers.
#[unsafe(no_mangle)]
pub extern "C" fn bp_tile_new(extent: u32) -> BpTile
    ensures { result ≡ tile_to (fresh_tile extent) }
{
    let t = Tile::new(extent);
    tile_to(t)
}

// TEXT, UTF8, ROOM, else a layer of the tile's extent, without features.
#[unsafe(no_mangle)]
pub extern "C" fn bp_create_layer(tile: BpTile, name: &[u8], texts: &mut [u8]) -> BpChanged
    ensures { Gives (told flat_created (created name.now tile.extent texts.old)) result texts.new }
{
    let t = tile_of(tile);
    let r = t.create_layer(name, texts);
    crate::answers::created(r)
}

// TEXT, UTF8, ROOM, else the same, strict: a layer that takes no key twice in a feature.
#[unsafe(no_mangle)]
pub extern "C" fn bp_create_strict_layer(tile: BpTile, name: &[u8], texts: &mut [u8]) -> BpChanged
    ensures { Gives (told flat_created (created_strict name.now tile.extent texts.old)) result texts.new }
{
    let t = tile_of(tile);
    let r = t.create_strict_layer(name, texts);
    crate::answers::created(r)
}

// STATE, TURN, EXTENT, NAME, ROOM, else the layer's bytes behind those of the tile.
#[unsafe(no_mangle)]
pub extern "C" fn bp_add_layer(
    tile: BpTile,
    given: BpLayer,
    keys: &[u32],
    values: &[u32],
    texts: &[u8],
    features: &[u32],
    names: &mut [u32],
    bytes: &mut [u8],
) -> BpAdded
    ensures { Gives (added_from tile given (entered keys values texts features) (tile_entered (mutable names) (mutable bytes))) result (tile_left (mutable names) (mutable bytes)) }
{
    let t = tile_of(tile);
    let s = layer_of(given);
    let r = t.add_layer(s, keys, values, texts, features, names, bytes);
    added(r)
}

// STATE, of the layer alone, else by how many bytes adding it lets the tile grow.
#[unsafe(no_mangle)]
pub extern "C" fn bp_layer_size(
    tile: BpTile,
    given: BpLayer,
    keys: &[u32],
    values: &[u32],
    texts: &[u8],
    features: &[u32],
) -> BpCounted
    ensures { result ≡ flat_tile_counted (layer_size (tile_of tile) (seen_from given (entered keys values texts features))) }
{
    let t = tile_of(tile);
    let s = layer_of(given);
    let r = t.layer_size(s, keys, values, texts, features);
    tile_counted(r)
}

// STATE, else how many layers the tile has.
#[unsafe(no_mangle)]
pub extern "C" fn bp_num_layers(tile: BpTile, names: &[u32], bytes: &[u8]) -> BpCounted
    ensures { result ≡ flat_tile_counted (num_layers (tile_of tile) (tile_entered names bytes)) }
{
    let t = tile_of(tile);
    let r = t.num_layers(names, bytes);
    tile_counted(r)
}

// STATE, else the encoded size in bytes.
#[unsafe(no_mangle)]
pub extern "C" fn bp_compute_size(tile: BpTile, names: &[u32], bytes: &[u8]) -> BpCounted
    ensures { result ≡ flat_tile_counted (compute_size (tile_of tile) (tile_entered names bytes)) }
{
    let t = tile_of(tile);
    let r = t.compute_size(names, bytes);
    tile_counted(r)
}

// STATE, else where the tile's bytes end in the lent list, at whose front they stand.
#[unsafe(no_mangle)]
pub extern "C" fn bp_to_bytes(tile: BpTile, names: &[u32], bytes: &[u8]) -> BpCounted
    ensures { result ≡ flat_tile_counted (to_bytes (tile_of tile) (tile_entered names bytes)) }
{
    let t = tile_of(tile);
    let r = t.to_bytes(names, bytes);
    tile_counted(r)
}
