//! Names in the order of their bytes, which isn't that of a tree: `a-b` stands between `a` and `a/b`.
ghost use Rattle.std.specs.Prelude.{◌≡◌, ◌++◌};
ghost use Rattle.far_words.specs.Paths.{bytes_cmp};
ghost use Rattle.std.specs.Option.{option_map};
ghost use Rattle.lease_tree.specs.Under;
ghost use Rattle.lease_tree.specs.Edges.{text_of};

use std::cmp::Ordering;

/// How a text that is given in two pieces compares to a name.
pub fn order_pair(front: &[u8], back: &[u8], name: &[u8]) -> Ordering
    ensures { result ≡ bytes_cmp (front.now ++ back.now) name.now }
{
    if name.starts_with(front) {
        let rest = &name[front.len()..];
        return Ord::cmp(&back, &rest);
    }
    Ord::cmp(&front, &name)
}

/// A text in three pieces, which stands between names.
#[derive(Clone, Copy)]
pub struct Edge<'a> {
    pub front: &'a [u8],
    pub middle: &'a [u8],
    pub back: &'a [u8],
}

/// How it compares to a name.
pub fn order(edge: Edge<'_>, name: &[u8]) -> Ordering
    ensures { result ≡ bytes_cmp (text_of edge.entry) name.now }
{
    if name.starts_with(edge.front) {
        return order_pair(edge.middle, edge.back, &name[edge.front.len()..]);
    }
    Ord::cmp(&edge.front, &name)
}

/// Whether a name is under another: it begins with that one and a slash.
pub fn is_under(path: &[u8], name: &[u8]) -> bool
    ensures { result ≡ Under.is_under path.now name.now }
{
    name.starts_with(path) && name[path.len()..].starts_with(b"/")
}

/// Whether a name stands after a text. Without a text it does.
pub fn is_past(after: Option<Edge<'_>>, name: &[u8]) -> bool
    ensures { result ≡ Under.is_past (option_map text_of after.entry) name.now }
{
    match after {
        Some(edge) => order(edge, name) == Ordering::Less,
        None => true,
    }
}
