// The indexes of what a layer holds, built where they serve.
ghost use Rattle.promise.specs.Lent.{mutable};
ghost use Rattle.index.specs.Entries.{built_keys, built_values};
ghost use Rattle.layer.specs.WholeSteps.{UsedIn};
ghost use Rattle.layer.specs.Lending.{Builds, BuildsBoth};

use crate::Figures;

fn index_keys(room: usize, keys: &[u32], texts: &[u8], list: &mut [u32])
    ensures { Builds built_keys room keys texts (mutable list) }
{
    if !index::serves(list.len(), room) {
        return;
    }
    index::build_keys(list, keys, texts);
}

fn index_values(room: usize, values: &[u32], texts: &[u8], list: &mut [u32])
    ensures { Builds built_values room values texts (mutable list) }
{
    if !index::serves(list.len(), room) {
        return;
    }
    index::build_values(list, values, texts);
}

// Both of what is used of the lists, unless they are built already.
pub(crate) fn build_index(
    u: Figures,
    built: bool,
    room: Figures,
    keys: &[u32],
    values: &[u32],
    texts: &[u8],
    ki: &mut [u32],
    vi: &mut [u32],
)
    requires { UsedIn u keys.now values.now texts.now }
    ensures { BuildsBoth u built room keys values texts (mutable ki) (mutable vi) }
{
    if built {
        return;
    }
    let k = u.keys * 2;
    let v = u.values * 3;
    let t = u.texts;
    index_keys(room.keys, &keys[..k], &texts[..t], ki);
    index_values(room.values, &values[..v], &texts[..t], vi);
}
