//! The title of a case, by the case's name.

ghost use Rattle.std.specs.Prelude.{◌≡◌, map};
ghost use Rattle.ws_titles.specs.Titles.{title_among, title_of, title_pair};

use crate::table::{PARTS, Title, titles};

/// The title of the case with this name, as `2.5`. Empty if there is no such case.
pub fn title_of(id: &str) -> &'static str
    ensures { result.now ≡ title_of id.now }
{
    for part in 0..PARTS {
        let title = title_among(titles(part), id);
        if !title.is_empty() {
            return title;
        }
    }
    ""
}

/// The first title among these that stands beside this name. Empty if none does.
fn title_among(titles: &[Title], id: &str) -> &'static str
    ensures { result.now ≡ title_among (map title_pair titles.now) id.now }
{
    for title in titles {
        if title.0 == id {
            return title.1;
        }
    }
    ""
}
