// What is asked of the three numbers of a row.
ghost use Rattle.std.specs.Prelude.{◌≡◌};
ghost use Rattle.lane_scan.specs.Asked.{selects, covers};
ghost use Rattle.lane_scan.specs.parts.Tests.{passes, meets, wanted_test};

/// What is asked of one number.
#[derive(Clone, Copy)]
pub enum PlaceTest {
    /// Nothing.
    Any,
    /// That it is this number.
    Is(u32),
    /// That it is the wildcard or this number.
    IsOrWildcard(u32),
}

/// What is asked of a row: something of each of its numbers.
#[derive(Clone, Copy)]
pub struct RowTest {
    pub client: PlaceTest,
    pub user: PlaceTest,
    pub privilege: PlaceTest,
}

impl PlaceTest {
    /// That the number is this one, where one is given.
    pub fn wanted(place: Option<u32>) -> PlaceTest
        ensures { result ≡ wanted_test place }
    {
        match place {
            Some(number) => PlaceTest::Is(number),
            None => PlaceTest::Any,
        }
    }

    /// Whether the number is as asked.
    pub fn passes(self, number: u32) -> bool
        ensures { result ≡ passes self number }
    {
        match self {
            PlaceTest::Any => true,
            PlaceTest::Is(wanted) => number == wanted,
            PlaceTest::IsOrWildcard(wanted) => number == 0 || number == wanted,
        }
    }
}

impl RowTest {
    /// That the row equals what is wanted, in each place that holds a number.
    pub fn selecting(want: [Option<u32>; 3]) -> RowTest
        ensures { meets result ≡ selects want }
    {
        RowTest {
            client: PlaceTest::wanted(want[0]),
            user: PlaceTest::wanted(want[1]),
            privilege: PlaceTest::wanted(want[2]),
        }
    }

    /// That the row speaks of the question.
    pub fn covering(question: [u32; 3]) -> RowTest
        ensures { meets result ≡ covers question }
    {
        RowTest {
            client: PlaceTest::IsOrWildcard(question[0]),
            user: PlaceTest::IsOrWildcard(question[1]),
            privilege: PlaceTest::IsOrWildcard(question[2]),
        }
    }

    /// Whether the row of these numbers is as asked.
    pub fn meets(self, client: u32, user: u32, privilege: u32) -> bool
        ensures { result ≡ meets self (record { client = client; user = user; privilege = privilege }) }
    {
        self.client.passes(client) && self.user.passes(user) && self.privilege.passes(privilege)
    }
}
