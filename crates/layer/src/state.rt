// The STATE of a layer, as one check. It reads the used part of every list once.
ghost use Rattle.std.specs.Prelude.{◌≡◌, Some, length};
ghost use Rattle.records.specs.Records.{is_found};
ghost use Rattle.layer.specs.State.{records_ok, valid};
ghost use Rattle.layer.specs.Lending.{sees};

use crate::{Figures, Layer, fits_in};

fn is_found(f: Option<usize>) -> bool
    ensures { result ≡ is_found f }
{
    f.is_some()
}

// STATE's rules of an open feature, of the used words.
fn since_ok(o: Figures, used: Figures, ws: &[u32]) -> bool
    requires { length ws.now ≡ used.features }
    ensures { result ≡ records_ok (Some o) used ws.now }
{
    if !fits_in(o, used) {
        return false;
    }
    let at = o.features;
    is_found(records::count(&ws[..at])) & records::is_last(ws, at)
}

// STATE's rules of records, of the used words.
fn records_ok(f: Option<Figures>, used: Figures, ws: &[u32]) -> bool
    requires { length ws.now ≡ used.features }
    ensures { result ≡ records_ok f used ws.now }
{
    match f {
        None => is_found(records::count(ws)),
        Some(o) => since_ok(o, used, ws),
    }
}

// Whether a layer and its lists break no rule of STATE.
pub fn is_valid(s: Layer, keys: &[u32], values: &[u32], texts: &[u8], features: &[u32]) -> bool
    ensures { result ≡ valid (sees s keys values texts features) }
{
    let used = s.used;
    let f = s.feature;
    if !Layer::has_room_for(used, keys.len(), values.len(), texts.len(), features.len()) {
        return false;
    }
    let k = used.keys * 2;
    let v = used.values * 3;
    let t = used.texts;
    let w = used.features;
    (s.name <= t)
        & (table::keys_in(&keys[..k], t)
            & (table::values_in(&values[..v], t) & records_ok(f, used, &features[..w])))
}
