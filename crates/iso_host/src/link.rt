//! What one side of a line has agreed on: the table of its messages, and the header of its frames.
ghost use Rattle.std.specs.Prelude.{◌≡◌, IfOk, IfErr, Some};
ghost use Rattle.iso_table.specs.HostReady.{host_fault, IsHostReady};

use iso_table::{HostTableFault, Table};
use iso_wire::Header;
use std::marker::Model;

/// A table that a host can serve under: every response can be written under it. A contract sees the table.
#[derive(Debug, Drop)]
pub struct HostTable {
    table: Table,
}

impl Model for HostTable {
    ghost use Rattle.iso_table.specs.Layout.{Layout};
    ghost use Rattle.iso_table.specs.HostReady.{IsHostReady};

    ghost Value = { Layout };

    ghost view = { λ h. h.table };

    ghost invariant = { λ h. IsHostReady h.table };
}

impl HostTable {
    /// The table, where [`Table::host_ready`] accepts it. Else the first thing that is wrong, and the table back. Takes no
    /// memory.
    pub fn new(table: Table) -> Result<HostTable, (HostTableFault, Table)>
        // At `Ok` it is the table that was given.
        ensures made { IfOk result (λ made. made ≡ table) }
        // It is made of exactly the tables that a host can serve under.
        ensures ready { IfOk result IsHostReady }
        // A refusal names the first thing for which no host can serve under the table.
        ensures fault { IfErr result (λ e. host_fault table ≡ Some e.0) }
        // A refusal gives the table back as it was.
        ensures back { IfErr result (λ e. e.1 ≡ table) }
    {
        match table.host_ready() {
            Ok(()) => Ok(HostTable { table }),
            Err(fault) => Err((fault, table)),
        }
    }

    /// The table itself.
    #[inline(always)]
    pub fn table(&self) -> &Table
        // It is the table that it was made of.
        ensures table { result.now ≡ self.now }
        // A host can serve under this table.
        ensures ready { IsHostReady self.now }
    {
        &self.table
    }
}

/// What one side of a line has agreed on with the host. Peers of different links can share one host.
#[derive(Debug, Drop)]
pub struct Link {
    table: HostTable,
    header: Header,
}

impl Model for Link {
    ghost use Rattle.iso_host.specs.Links.{Agreed};
    ghost use Rattle.iso_table.specs.HostReady.{IsHostReady};

    ghost Value = { Agreed };

    ghost view = { λ l. record { table = l.table; header = l.header } };

    ghost invariant = { λ l. IsHostReady l.table };
}

impl Link {
    /// The link of these. Takes no memory.
    pub fn new(table: HostTable, header: Header) -> Link
        ensures { result ≡ record { table = table; header = header } }
    {
        // any call on the table tells the proof that a host can serve under it
        let _table = table.table();
        Link { table, header }
    }

    /// How its messages are written.
    #[inline(always)]
    pub fn table(&self) -> &HostTable
        // It is the table that the link was made of.
        ensures table { result.now ≡ self.now.table }
        // A host can serve under this table.
        ensures ready { IsHostReady self.now.table }
    {
        &self.table
    }

    /// How its frames count their bodies.
    #[inline(always)]
    pub fn header(&self) -> Header
        ensures { result ≡ self.now.header }
    {
        self.header
    }
}
