// A tile (in the Rust: Tile of tile.rs, and prost). Its own record goes in and comes back by value; its bytes, as they go out, and the places of its layers'
// names in them stand in two lent lists, of which the record says how much is used. A layer is written when it is added.
#![tactic(auto)]

ghost use Rattle.std.specs.Prelude.{◌≡◌, true, take};
ghost use Rattle.promise.specs.Lent.{mutable};
ghost use Rattle.promise.specs.Answers.{Gives};
ghost use Rattle.layer.specs.Held.{seen};
ghost use Rattle.layer.specs.Answers.{said_created};
ghost use Rattle.layer.specs.Calls.{is_shut, created, created_strict};
ghost use Rattle.layer.specs.Lending.{entered};
ghost use Rattle.tile.specs.Lending.{given};
ghost use Rattle.tile.specs.Tiles.{lists, tile_entered, tile_left, name_room, byte_room, valid_tile, fresh_tile};
ghost use Rattle.tile.specs.Answers.{said_tile, said_counted};
ghost use Rattle.tile.specs.Adding.{has_name, appended, add_layer};
ghost use Rattle.tile.specs.Asking.{counted, num_layers, compute_size, to_bytes, layer_size};
ghost use Rattle.tile.specs.Steps.{Ready};

mod text; // a text of the layer as a field
mod value; // the message of a value
mod feature; // the message of a feature
mod feature_fields; // one field for each feature, key and value
mod key_fields;
mod value_fields;
mod layer_message; // the message of a layer, and the layer as a field of the tile

use crate::layer_message::{held_size, put_layer};
use layer::Layer;
use refusal::{Refusal, Refused};
use wire::field::Field;
use wire::head::varint_field_size;

// How much of the lent bytes is used, and how many layers the lent names have, two words each.
#[derive(Clone, Copy)]
pub struct Tile {
    pub extent: u32,
    pub used: usize,
    pub layers: usize,
}

// What adding a layer answers: the tile after it, or the refusal and the tile as it was given.
pub type Added = Result<Tile, Refused<Tile>>;

// What a call answers that asks for a number.
pub type Counted = Result<usize, Refused<Tile>>;

impl Tile {
    pub const MAX_BYTES: usize = 4294967295;

    // The room in lent bytes of this length.
    fn byte_room(bytes: usize) -> usize
        ensures { result ≡ byte_room bytes }
    {
        number::smaller(bytes, Tile::MAX_BYTES)
    }

    // The room in lent names of this length, two words an entry.
    fn name_room(names: usize) -> usize
        ensures { result ≡ name_room names }
    {
        names / 2
    }

    // A tile without layers.
    pub fn new(extent: u32) -> Tile
        ensures { result ≡ fresh_tile extent }
    {
        Tile {
            extent,
            used: 0,
            layers: 0,
        }
    }

    // Height and width of the tile's bounds.
    pub fn extent(self) -> u32
        ensures { result ≡ self.extent }
    {
        self.extent
    }

    // Whether a tile and its lists break no rule of STATE.
    pub fn is_valid(self, names: &[u32], bytes: &[u8]) -> bool
        ensures { result ≡ valid_tile self (tile_entered names bytes) }
    {
        let used = self.used;
        let layers = self.layers;
        if Tile::byte_room(bytes.len()) < used {
            return false;
        }
        if Tile::name_room(names.len()) < layers {
            return false;
        }
        let n = layers * 2;
        table::keys_in(&names[..n], used)
    }

    // A layer of the tile's extent, without features.
    pub fn create_layer(self, name: &[u8], texts: &mut [u8]) -> Result<Layer, Refusal>
        ensures { Gives (created name.now self.extent texts.old) (said_created result) texts.new }
    {
        Layer::new(name, self.extent, texts)
    }

    // The same, strict.
    pub fn create_strict_layer(self, name: &[u8], texts: &mut [u8]) -> Result<Layer, Refusal>
        ensures { Gives (created_strict name.now self.extent texts.old) (said_created result) texts.new }
    {
        Layer::new_strict(name, self.extent, texts)
    }

    // Whether the tile has a layer of this name.
    fn has_name(self, name: &[u8], names: &[u32], bytes: &[u8]) -> bool
        requires { valid_tile self (lists names.now bytes.now) ≡ true }
        ensures { result ≡ has_name self (tile_entered names bytes) name.now }
    {
        let n = self.layers * 2;
        let used = self.used;
        table::key_pos(&names[..n], &bytes[..used], name).is_some()
    }

    // A layer behind the others, if it has room: what adding one does once it may.
    fn append(
        self,
        s: Layer,
        keys: &[u32],
        values: &[u32],
        texts: &[u8],
        features: &[u32],
        names: &mut [u32],
        bytes: &mut [u8],
    ) -> Added
        requires { Ready self (seen s (given keys.now values.now texts.now features.now)) (lists names.old bytes.old) }
        ensures { Gives (appended self (seen s (entered keys values texts features)) (tile_entered (mutable names) (mutable bytes))) (said_tile result) (tile_left (mutable names) (mutable bytes)) }
    {
        let used = self.used;
        let layers = self.layers;
        let size = held_size(s, keys, values, texts, features);
        let lead = varint_field_size(Field::TileLayer, size as u64);
        let grown = lead + size;
        if !runs::has_room(used, grown, Tile::byte_room(bytes.len())) {
            return Err(Refused {
                refusal: Refusal::Room,
                kept: self,
            });
        }
        if !runs::has_room(layers, 1, Tile::name_room(names.len())) {
            return Err(Refused {
                refusal: Refusal::Room,
                kept: self,
            });
        }
        let place = lead + varint_field_size(Field::LayerName, s.name as u64);
        let start = used + place;
        let name = [start as u32, s.name as u32];
        runs::lay(&name, names, layers * 2);
        put_layer(s, size, keys, values, texts, features, &mut bytes[used..]);
        Ok(Tile {
            used: used + grown,
            layers: layers + 1,
            ..self
        })
    }

    // Adds a layer: its field goes behind the used bytes.
    pub fn add_layer(
        self,
        s: Layer,
        keys: &[u32],
        values: &[u32],
        texts: &[u8],
        features: &[u32],
        names: &mut [u32],
        bytes: &mut [u8],
    ) -> Added
        ensures { Gives (add_layer self (seen s (entered keys values texts features)) (tile_entered (mutable names) (mutable bytes))) (said_tile result) (tile_left (mutable names) (mutable bytes)) }
    {
        if !self.is_valid(&names[..], &bytes[..]) {
            return Err(Refused {
                refusal: Refusal::State,
                kept: self,
            });
        }
        if !layer::state::is_valid(s, keys, values, texts, features) {
            return Err(Refused {
                refusal: Refusal::State,
                kept: self,
            });
        }
        if !s.is_shut() {
            return Err(Refused {
                refusal: Refusal::Turn,
                kept: self,
            });
        }
        if s.extent != self.extent {
            return Err(Refused {
                refusal: Refusal::Extent,
                kept: self,
            });
        }
        if self.has_name(&texts[..s.name], &names[..], &bytes[..]) {
            return Err(Refused {
                refusal: Refusal::Name,
                kept: self,
            });
        }
        self.append(s, keys, values, texts, features, names, bytes)
    }

    // By how many bytes adding this layer lets the tile grow, asked before it is added.
    pub fn layer_size(
        self,
        s: Layer,
        keys: &[u32],
        values: &[u32],
        texts: &[u8],
        features: &[u32],
    ) -> Counted
        ensures { said_counted result ≡ layer_size self (seen s (entered keys values texts features)) }
    {
        if !layer::state::is_valid(s, keys, values, texts, features) {
            return Err(Refused {
                refusal: Refusal::State,
                kept: self,
            });
        }
        let size = held_size(s, keys, values, texts, features);
        Ok(varint_field_size(Field::TileLayer, size as u64) + size)
    }

    // A figure of the tile, if the tile breaks no rule of STATE.
    fn count(self, figure: usize, names: &[u32], bytes: &[u8]) -> Counted
        ensures { said_counted result ≡ counted self (tile_entered names bytes) figure }
    {
        if !self.is_valid(names, bytes) {
            return Err(Refused {
                refusal: Refusal::State,
                kept: self,
            });
        }
        Ok(figure)
    }

    // How many layers the tile has.
    pub fn num_layers(self, names: &[u32], bytes: &[u8]) -> Counted
        ensures { said_counted result ≡ num_layers self (tile_entered names bytes) }
    {
        self.count(self.layers, names, bytes)
    }

    // The encoded size in bytes.
    pub fn compute_size(self, names: &[u32], bytes: &[u8]) -> Counted
        ensures { said_counted result ≡ compute_size self (tile_entered names bytes) }
    {
        self.count(self.used, names, bytes)
    }

    // Where the tile's bytes end in the lent list, at whose front they stand. An answer holds no reference: `part` hands out the bytes themselves.
    pub fn to_bytes(self, names: &[u32], bytes: &[u8]) -> Counted
        ensures { said_counted result ≡ to_bytes self (tile_entered names bytes) }
    {
        self.compute_size(names, bytes)
    }

    // The tile itself: the used part of the lent bytes, or all of them where the tile says that more is used.
    pub fn part(self, bytes: &[u8]) -> &[u8]
        ensures { result.now ≡ take self.used bytes.now }
    {
        let n = self.used;
        if bytes.len() < n {
            return bytes;
        }
        &bytes[..n]
    }
}
