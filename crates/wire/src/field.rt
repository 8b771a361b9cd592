// MVT's fields by message, with their numbers and PB's wire types.
ghost use Rattle.std.specs.Prelude.{◌≡◌};
ghost use Rattle.wire.specs.Schema.{kind_number, kind_type, number_of, type_of, key_of};

#[derive(Clone, Copy)]
pub enum ValueKind {
    Text,
    Float,
    Double,
    Int,
    Uint,
    Sint,
    Bool,
}

#[derive(Clone, Copy)]
pub enum Field {
    TileLayer,
    LayerName,
    LayerFeature,
    LayerKey,
    LayerValue,
    LayerExtent,
    LayerVersion,
    FeatureId,
    FeatureTags,
    FeatureType,
    FeatureGeometry,
    Value(ValueKind),
}

impl ValueKind {
    pub fn number(self) -> u64
        ensures { result ≡ kind_number self }
    {
        match self {
            ValueKind::Text => 1,
            ValueKind::Float => 2,
            ValueKind::Double => 3,
            ValueKind::Int => 4,
            ValueKind::Uint => 5,
            ValueKind::Sint => 6,
            ValueKind::Bool => 7,
        }
    }

    pub fn wire_type(self) -> u64
        ensures { result ≡ kind_type self }
    {
        match self {
            ValueKind::Text => Field::DELIMITED,
            ValueKind::Float => Field::FIXED32,
            ValueKind::Double => Field::FIXED64,
            ValueKind::Int => Field::VARINT,
            ValueKind::Uint => Field::VARINT,
            ValueKind::Sint => Field::VARINT,
            ValueKind::Bool => Field::VARINT,
        }
    }
}

impl Field {
    // PB's wire types.
    pub const VARINT: u64 = 0;

    pub const FIXED64: u64 = 1;

    pub const DELIMITED: u64 = 2;

    pub const FIXED32: u64 = 5;

    pub fn number(self) -> u64
        ensures { result ≡ number_of self }
    {
        match self {
            Field::TileLayer => 3,
            Field::LayerName => 1,
            Field::LayerFeature => 2,
            Field::LayerKey => 3,
            Field::LayerValue => 4,
            Field::LayerExtent => 5,
            Field::LayerVersion => 15,
            Field::FeatureId => 1,
            Field::FeatureTags => 2,
            Field::FeatureType => 3,
            Field::FeatureGeometry => 4,
            Field::Value(kind) => kind.number(),
        }
    }

    pub fn wire_type(self) -> u64
        ensures { result ≡ type_of self }
    {
        match self {
            Field::TileLayer => Field::DELIMITED,
            Field::LayerName => Field::DELIMITED,
            Field::LayerFeature => Field::DELIMITED,
            Field::LayerKey => Field::DELIMITED,
            Field::LayerValue => Field::DELIMITED,
            Field::LayerExtent => Field::VARINT,
            Field::LayerVersion => Field::VARINT,
            Field::FeatureId => Field::VARINT,
            Field::FeatureTags => Field::DELIMITED,
            Field::FeatureType => Field::VARINT,
            Field::FeatureGeometry => Field::DELIMITED,
            Field::Value(kind) => kind.wire_type(),
        }
    }

    // What a field begins with, as a varint.
    pub fn key(self) -> u64
        ensures { result ≡ key_of self }
    {
        let number = self.number();
        let wire_type = self.wire_type();
        8 * number + wire_type
    }
}
