// The ends that stand in the roll.
ghost use Rattle.std.specs.Prelude.{◌≡◌, ◌≤◌, length, Some};
ghost use Rattle.live_roll.specs.Places.{is_below, IsHungUp, IsHungUpIf, IsLeft, IsClosed, AreHungUp, AreHungBelow};
ghost use Rattle.live_roll.specs.Places.{is_served, count_served};

use link_ports::HangEnd;

/// What hangs a connection up, the commit at which the connection entered, and whether it has left since.
#[derive(Drop)]
pub struct Entry<H> {
    pub end: H,
    pub entered: u64,
    pub has_left: bool,
}

/// Hangs up what stands in a place, if anything does. It stays there.
pub fn hang_up<H: HangEnd>(place: &mut Option<Entry<H>>)
    ensures { IsHungUp H.used place.old place.new }
{
    if let Some(entry) = place {
        entry.end.hang_up();
    }
}

/// Hangs up what stands in a place, if anything does, and notes that its connection has left. It stays there.
pub fn leave<H: HangEnd>(place: &mut Option<Entry<H>>)
    ensures { IsLeft H.used place.old place.new }
{
    if let Some(entry) = place {
        entry.end.hang_up();
        entry.has_left = true;
    }
}

/// Puts an end into a place. What stood there is hung up first, and dropped.
pub fn enter<H: HangEnd>(place: &mut Option<Entry<H>>, entry: Entry<H>)
    ensures { place.new ≡ Some entry }
{
    hang_up(place);
    put(place, entry);
}

// Puts an end into a place, where nothing stands that is not hung up.
fn put<H: HangEnd>(place: &mut Option<Entry<H>>, entry: Entry<H>)
    requires { IsClosed H.used place.old }
    ensures { place.new ≡ Some entry }
{
    *place = Some(entry);
}

/// Hangs up each end that entered below the commit.
pub fn hang_below<H: HangEnd>(places: &mut [Option<Entry<H>>], low: u64)
    ensures { AreHungBelow H.used low places.old places.new }
{
    for place in places.iter_mut() {
        hang_if_below(place, low);
    }
}

/// Hangs up all ends.
pub fn hang_each<H: HangEnd>(places: &mut [Option<Entry<H>>])
    ensures { AreHungUp H.used places.old places.new }
{
    for place in places.iter_mut() {
        hang_up(place);
    }
}

fn hang_if_below<H: HangEnd>(place: &mut Option<Entry<H>>, low: u64)
    ensures { IsHungUpIf H.used (is_below low place.old) place.old place.new }
{
    if is_below(place, low) {
        hang_up(place);
    }
}

fn is_below<H: HangEnd>(place: &Option<Entry<H>>, low: u64) -> bool
    ensures { result ≡ is_below low place.now }
{
    match place {
        Some(entry) => entry.entered < low,
        None => false,
    }
}

/// In how many places a connection stands that has not left.
pub fn count_served<H>(places: &[Option<Entry<H>>]) -> usize
    ensures count { result ≡ count_served places.now }
    ensures bound { result ≤ length places.now }
{
    places.iter().filter(|place| is_served(place)).count()
}

fn is_served<H>(place: &Option<Entry<H>>) -> bool
    ensures { result ≡ is_served place.now }
{
    match place {
        Some(entry) => !entry.has_left,
        None => false,
    }
}
