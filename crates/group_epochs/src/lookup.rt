//! Look-ups of texts that are often the last one.
ghost use Rattle.std.specs.Prelude.{◌≡◌, ◌<◌, IfSome, slice_get, string_bytes};
ghost use Rattle.std.specs.Str.{bytes_eq};
ghost use Rattle.std.specs.String.{string_eq};
ghost use Rattle.indexmap.specs.IndexMap.{IsUnique, get_by_text, index_map_len, index_of_by, values};

use indexmap::IndexMap;
use std::collections::hash_map::RandomState;

/// The place of a text: the one where the last was found, if the text stands there, and else the one that its hash leads to. So no
/// hash is made where one text is looked for again and again. Takes no memory.
pub fn place_of<V>(map: &IndexMap<String, V, RandomState>, last: usize, text: &str) -> Option<usize>
    ensures index { result ≡ index_of_by (λ key. bytes_eq text.now (string_bytes key)) map.now }
    ensures value { IfSome result (λ place. slice_get (values map.now) place ≡ get_by_text map.now text.now) }
    ensures within { IfSome result (λ place. place < index_map_len map.now) }
    ensures unique { IsUnique string_eq map.now }
{
    if last < map.len() {
        if let Some((key, _)) = map.get_index(last) {
            if key.as_str() == text {
                return Some(last);
            }
        }
    }
    map.get_index_of(text)
}
