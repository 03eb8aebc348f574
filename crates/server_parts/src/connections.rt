ghost use Rattle.std.specs.Prelude.{◌≡◌, ◌≤◌, [], length, slice_get, OnOk, OnErr};
ghost use Rattle.std.specs.Option.{option_copied};
ghost use Rattle.spec_server.specs.Gates as gates;
ghost use Rattle.server_parts.specs.ConnectionOrder as connection_order;

use ax_types::{ClientId, NoMemory};
use std::alloc::Global;
use std::marker::Model;

/// A session that is connected to a server, and its client.
#[derive(Clone, Copy)]
pub struct Connection {
    session: u64,
    client: ClientId,
}

impl Model for Connection {
    ghost use Rattle.spec_server.specs.Gates as gates;

    ghost Value = { gates.Connection };

    ghost view = { λ a. record { session = a.session; client = a.client } };

    ghost inverse = { λ c. record { session = c.session; client = c.client } };
}

impl Connection {
    /// The session.
    fn session(&self) -> u64
        ensures { result ≡ self.now.session }
    {
        self.session
    }

    /// The client.
    pub fn client(&self) -> ClientId
        ensures { result ≡ self.now.client }
    {
        self.client
    }
}

/// The sessions that are connected to a server, in order of session.
#[derive(Drop)]
pub struct Connections {
    all: Vec<Connection>,
}

impl Model for Connections {
    ghost use Rattle.std.specs.Prelude.{List as Items};
    ghost use Rattle.spec_server.specs.Gates as gates;
    ghost use Rattle.server_parts.specs.ConnectionOrder as connection_order;

    ghost Value = { Items gates.Connection };

    ghost view = { λ a. a.all.items };

    ghost invariant = { λ a. connection_order.ConnectionsRise a.all.items };
}

impl Connections {
    /// No connection. It takes no memory.
    pub fn new(alloc: Global) -> Self
        ensures { result ≡ [] }
    {
        Connections {
            all: Vec::new(alloc),
        }
    }

    /// A session is connected, or has another client from now on. The connections are unchanged after want of memory.
    pub fn connect(&mut self, session: u64, client: ClientId) -> Result<(), NoMemory>
        ensures ok { OnOk result (self.new ≡ gates.connected self.old session client) }
        ensures err { OnErr result (self.new ≡ self.old) }
    {
        let place = self.index(session);
        let connection = Connection { session, client };
        if self.is_at(place, session) {
            self.all[place] = connection;
        } else {
            self.all.insert(place, connection)?;
        }
        Ok(())
    }

    /// The connection of a session.
    pub fn connection(&self, session: u64) -> Option<&Connection>
        ensures { option_copied result ≡ gates.connection self.now session }
    {
        let place = self.index(session);
        if self.is_at(place, session) {
            let found = &self.all[place];
            Some(found)
        } else {
            None
        }
    }

    /// How many connections stand before the place of a session.
    fn index(&self, session: u64) -> usize
        ensures index { result ≡ connection_order.connections_below session self.now }
        ensures within { result ≤ length self.now }
    {
        self.all
            .partition_point(|connection| connection.session() < session)
    }

    /// Whether the connection of a session stands there.
    fn is_at(&self, index: usize, session: u64) -> bool
        ensures { result ≡ connection_order.is_connection_of session (slice_get self.now index) }
    {
        match self.all.get(index) {
            Some(connection) => connection.session() == session,
            None => false,
        }
    }
}
