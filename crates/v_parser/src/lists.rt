//! Lists of parts of one kind.

ghost use Rattle.std.specs.Prelude.{◌≡◌};
ghost use Rattle.v_parser.specs.Input as input;
ghost use Rattle.v_parser.specs.Input.{Reads};

use crate::cursor::Cursor;
use crate::fault::ParseFault;
use sqlite_items::Items;

/// A part of a tree that is read by itself.
pub trait Part: Sized + Drop {
    ghost use Rattle.v_parser.specs.Input.{Reader, Reads};

    /// How it is read.
    ghost reader: { Reader Self };

    fn read(cursor: &mut Cursor<'_>) -> Result<Self, ParseFault>
        ensures { Reads (reader cursor.old) result cursor.new };
}

/// Whether a comma comes next, which is passed.
#[tactic(auto, unfolding(crate::specs::Input::front))]
pub fn passes_comma(cursor: &mut Cursor<'_>) -> bool
    ensures seen { result ≡ input.is_mark 44 (input.front cursor.old) }
    ensures passed { cursor.new ≡ input.after_comma cursor.old }
{
    let sees = cursor.sees_mark(b',');
    if sees {
        cursor.advance();
    }
    sees
}

/// The parts as a list of a tree, which takes no more room than they need.
pub fn into_items<P: Drop>(mut found: Vec<P>) -> Items<P>
    ensures { result ≡ found.items }
{
    found.shrink_to_fit();
    Items::from_vec(found)
}

/// Parts, each behind a comma, put behind those that were found.
#[tactic(auto, unfolding(crate::specs::Input::commas, crate::specs::Input::commas_from))]
pub fn commas<P: Part>(cursor: &mut Cursor<'_>, mut found: Vec<P>) -> Result<Items<P>, ParseFault>
    ensures { Reads (input.commas P.reader found.items cursor.old) result cursor.new }
{
    for _ in 0..cursor.left() {
        if !passes_comma(cursor) {
            return Ok(into_items(found));
        }
        found.push(P::read(cursor)?)?;
    }
    Ok(into_items(found))
}

/// One part or several, with commas between.
#[tactic(auto, unfolding(crate::specs::Input::comma_list))]
pub fn comma_list<P: Part>(cursor: &mut Cursor<'_>) -> Result<Items<P>, ParseFault>
    ensures { Reads (input.comma_list P.reader cursor.old) result cursor.new }
{
    let mut found = Vec::new(cursor.alloc());
    found.push(P::read(cursor)?)?;
    commas(cursor, found)
}

/// A part that comes again and again, up to a token that ends the list.
pub trait RepeatedPart: Part {
    ghost use Rattle.std.specs.Prelude.{◌≡◌, Bool};
    ghost use Rattle.v_tree.specs.Written.{Form};
    ghost use Rattle.v_parser.specs.Input.{front};

    /// What ends the list.
    ghost stops: { Form → Bool };

    /// Whether the list ends here.
    fn ends(cursor: &Cursor<'_>) -> bool
        ensures { result ≡ stops (front cursor.now) };
}

/// Parts up to a token that ends them, put behind those that were found.
#[tactic(auto, unfolding(crate::specs::Input::many_after, crate::specs::Input::many_from))]
fn many_after<P: RepeatedPart>(
    cursor: &mut Cursor<'_>,
    mut found: Vec<P>,
) -> Result<Items<P>, ParseFault>
    ensures { Reads (input.many_after P.stops P.reader found.items cursor.old) result cursor.new }
{
    for _ in 0..cursor.left() {
        if P::ends(cursor) {
            return Ok(into_items(found));
        }
        found.push(P::read(cursor)?)?;
    }
    Ok(into_items(found))
}

/// Parts up to a token that ends them.
#[tactic(auto, unfolding(crate::specs::Input::many))]
pub fn many<P: RepeatedPart>(cursor: &mut Cursor<'_>) -> Result<Items<P>, ParseFault>
    ensures { Reads (input.many P.stops P.reader cursor.old) result cursor.new }
{
    let found = Vec::new(cursor.alloc());
    many_after(cursor, found)
}

/// One part or several, up to a token that ends them.
#[tactic(auto, unfolding(crate::specs::Input::some))]
pub fn some<P: RepeatedPart>(cursor: &mut Cursor<'_>) -> Result<Items<P>, ParseFault>
    ensures { Reads (input.some P.stops P.reader cursor.old) result cursor.new }
{
    let mut found = Vec::new(cursor.alloc());
    found.push(P::read(cursor)?)?;
    many_after(cursor, found)
}
