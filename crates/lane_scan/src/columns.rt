ghost use Rattle.std.specs.Prelude.{◌≡◌, ◌<◌, ◌≤◌, ◌++◌, [], ◌∷◌, length, OnOk, OnErr};
ghost use Rattle.lane_scan.specs.Rows.{most_rows, numbers_of};
ghost use Rattle.lane_scan.specs.Asked.{selects, covers as covering};

mod lanes;
mod marks;
mod plain;
mod scans;

use crate::tests_of_rows::RowTest;
use std::alloc::{AllocError, Global};
use std::marker::Model;

/// At most 65,536 rows of three numbers each: those of a client, a user and a privilege. The number 0 stands for the
/// wildcard. A row goes by its own number, from 0.
#[derive(Drop)]
pub struct Columns {
    clients: Vec<u32>,
    users: Vec<u32>,
    privileges: Vec<u32>,
}

impl Model for Columns {
    ghost use Rattle.std.specs.Prelude.{List};
    ghost use Rattle.lane_scan.specs.Rows.{Row};
    ghost use Rattle.lane_scan.specs.parts.Columns.{rows_of, AreColumns};

    ghost Value = { List Row };

    ghost view = { λ columns. rows_of columns.clients.items columns.users.items columns.privileges.items };

    ghost invariant = { λ columns. AreColumns columns.clients.items columns.users.items columns.privileges.items };
}

impl Columns {
    /// No rows. Takes no memory.
    pub fn new(alloc: Global) -> Columns
        ensures { result ≡ [] }
    {
        Columns {
            clients: Vec::new(alloc),
            users: Vec::new(alloc),
            privileges: Vec::new(alloc),
        }
    }

    /// How many rows there are.
    pub fn len(&self) -> usize
        ensures count { result ≡ length self.now }
        ensures bound { length self.now ≤ most_rows }
    {
        self.clients.len()
    }

    /// Appends a row. For want of memory it leaves the rows as they were.
    pub fn push(&mut self, client: u32, user: u32, privilege: u32) -> Result<(), AllocError>
        requires { length self.old < most_rows }
        ensures pushed { OnOk result (self.new ≡
            self.old ++ record { client = client; user = user; privilege = privilege } ∷ []) }
        ensures kept { OnErr result (self.new ≡ self.old) }
    {
        let count = self.clients.len();
        self.clients.push(client)?;
        if let Err(error) = self.users.push(user) {
            self.clients.truncate(count);
            return Err(AllocError::from(error));
        }
        if let Err(error) = self.privileges.push(privilege) {
            self.clients.truncate(count);
            self.users.truncate(count);
            return Err(AllocError::from(error));
        }
        Ok(())
    }

    /// Appends to `out`, in rising order, the numbers of the rows that equal `want` in each place that holds a number:
    /// client, user and privilege in turn. For want of memory it leaves `out` as it was.
    pub fn select(&self, want: [Option<u32>; 3], out: &mut Vec<u32>) -> Result<(), AllocError>
        ensures selected { OnOk result (out.new.items ≡ out.old.items ++ numbers_of (selects want) self.now) }
        ensures kept { OnErr result (out.new.items ≡ out.old.items) }
    {
        self.push_whole(RowTest::selecting(want), out)
    }

    /// Appends to `out`, in rising order, the numbers of the rows that speak of the question: each of their places is
    /// the wildcard or the question's number. For want of memory it leaves `out` as it was.
    pub fn covers(&self, question: [u32; 3], out: &mut Vec<u32>) -> Result<(), AllocError>
        ensures covering { OnOk result (out.new.items ≡ out.old.items ++ numbers_of (covering question) self.now) }
        ensures kept { OnErr result (out.new.items ≡ out.old.items) }
    {
        self.push_whole(RowTest::covering(question), out)
    }
}
