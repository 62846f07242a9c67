//! The keys of a station file: one table for each kind of table in it, by the bytes of their keys, and what is made of such a table.
ghost use Rattle.std.specs.Prelude.{◌≡◌, map};
ghost use Rattle.station_values.specs.Station.{AreWithin};
ghost use Rattle.station_reader.specs.Faults.{rows_of};
ghost use Rattle.station_reader.specs.Finding.{row_seen};
ghost use Rattle.station_reader.specs.Rows.{top_of};
ghost use Rattle.toml.specs.View.{table_view};

use crate::form::{Form, Need, Row};
use crate::items::Item;
use crate::keys::Part;
use crate::values::{cidr, ip, number, plan, secret, text};
use outside_traits::Address;
use station_values::{DeniedNet, LinkRow, Radio, ServerRow, SharedKey, TopNumbers};
use std::alloc::{AllocError, Global};
use tick_units::Local;
use toml::Table;

// ---- the top table

pub const BOUND_ROW: Row = Row {
    key: "bound",
    form: Form::Whole(1, 16_000),
    need: Need::Preset(1000),
};

pub const CLIENTS_ROW: Row = Row {
    key: "clients",
    form: Form::Whole(1, 65_536),
    need: Need::Preset(1024),
};

pub const DENY_ROW: Row = Row {
    key: "deny",
    form: Form::Tables,
    need: Need::Optional,
};

pub const GAP_ROW: Row = Row {
    key: "gap",
    form: Form::Whole(0, 60_000_000),
    need: Need::Preset(0),
};

pub const KEY_ROW: Row = Row {
    key: "key",
    form: Form::Tables,
    need: Need::Optional,
};

pub const LEAP_FILE_ROW: Row = Row {
    key: "leap_file",
    form: Form::Text,
    need: Need::Optional,
};

pub const LINK_ROW: Row = Row {
    key: "link",
    form: Form::Tables,
    need: Need::Optional,
};

pub const RADIO_ROW: Row = Row {
    key: "radio",
    form: Form::Tables,
    need: Need::Optional,
};

pub const SERVER_ROW: Row = Row {
    key: "server",
    form: Form::Tables,
    need: Need::Optional,
};

pub const START_ROW: Row = Row {
    key: "start",
    form: Form::Whole(0, 1 << 49),
    need: Need::Preset(0),
};

// ---- a radio

pub const DELAY_ROW: Row = Row {
    key: "delay",
    form: Form::Whole(0, 100_000),
    need: Need::Preset(0),
};

pub const LOG_ROW: Row = Row {
    key: "log",
    form: Form::Text,
    need: Need::Required,
};

pub const PLAN_ROW: Row = Row {
    key: "plan",
    form: Form::Plan,
    need: Need::Required,
};

// ---- a server

pub const ADDRESS_ROW: Row = Row {
    key: "address",
    form: Form::Address,
    need: Need::Required,
};

pub const POLLS_ROW: Row = Row {
    key: "polls",
    form: Form::Whole(0, 100_000),
    need: Need::Preset(8),
};

// ---- a server, and a link

pub const PORT_ROW: Row = Row {
    key: "port",
    form: Form::Whole(1, 65_535),
    need: Need::Required,
};

// ---- a key that is shared with clients

pub const ID_ROW: Row = Row {
    key: "id",
    form: Form::Whole(1, 4_294_967_295),
    need: Need::Required,
};

pub const SECRET_ROW: Row = Row {
    key: "secret",
    form: Form::Secret,
    need: Need::Required,
};

// ---- a denied net

pub const NET_ROW: Row = Row {
    key: "net",
    form: Form::Net,
    need: Need::Required,
};

const TOP_ROWS: [Row; 10] = [
    BOUND_ROW,
    CLIENTS_ROW,
    DENY_ROW,
    GAP_ROW,
    KEY_ROW,
    LEAP_FILE_ROW,
    LINK_ROW,
    RADIO_ROW,
    SERVER_ROW,
    START_ROW,
];

const RADIO_ROWS: [Row; 3] = [DELAY_ROW, LOG_ROW, PLAN_ROW];

const SERVER_ROWS: [Row; 3] = [ADDRESS_ROW, POLLS_ROW, PORT_ROW];

const LINK_ROWS: [Row; 1] = [PORT_ROW];

const KEY_ROWS: [Row; 2] = [ID_ROW, SECRET_ROW];

const DENY_ROWS: [Row; 1] = [NET_ROW];

// The rows of a table.
pub fn rows_of(part: Part) -> &'static [Row]
    ensures { map row_seen result.now ≡ rows_of part }
{
    match part {
        Part::Top => &TOP_ROWS,
        Part::Radio => &RADIO_ROWS,
        Part::Server => &SERVER_ROWS,
        Part::Link => &LINK_ROWS,
        Part::Key => &KEY_ROWS,
        Part::Deny => &DENY_ROWS,
    }
}

// ---- what is made of a table

// The numbers of the top table.
pub fn top_numbers(table: &Table) -> TopNumbers
    ensures said { result ≡ top_of (table_view table.now) }
    ensures within { AreWithin result }
{
    TopNumbers {
        bound: number(table, &BOUND_ROW) as u32,
        start: Local::new(number(table, &START_ROW)).unwrap(),
        gap: number(table, &GAP_ROW),
        clients: number(table, &CLIENTS_ROW) as u32,
    }
}

impl Item for Radio {
    ghost use Rattle.station_values.specs.KeptStation.{radio_kept};
    ghost use Rattle.station_values.specs.Station.{RadioFields};
    ghost use Rattle.station_reader.specs.Rows.{radio_of, radio_rows};

    ghost rows = { radio_rows };

    ghost Fields = { RadioFields };

    ghost fields = { radio_kept };

    ghost row_of = { radio_of };

    fn read(alloc: Global, table: &Table) -> Result<Radio, AllocError> {
        Ok(Radio {
            plan: plan(table),
            log: String::from_str(alloc, text(table, &LOG_ROW))?,
            delay: number(table, &DELAY_ROW) as u32,
        })
    }
}

impl Item for ServerRow {
    ghost use Rattle.station_values.specs.KeptStation.{server_fields};
    ghost use Rattle.station_values.specs.Station.{ServerFields};
    ghost use Rattle.station_reader.specs.Rows.{server_of, server_rows};

    ghost rows = { server_rows };

    ghost Fields = { ServerFields };

    ghost fields = { server_fields };

    ghost row_of = { server_of };

    fn read(_alloc: Global, table: &Table) -> Result<ServerRow, AllocError> {
        Ok(ServerRow {
            address: Address {
                ip: ip(table),
                port: number(table, &PORT_ROW) as u16,
            },
            polls: number(table, &POLLS_ROW) as u32,
        })
    }
}

impl Item for LinkRow {
    ghost use Rattle.std.specs.Prelude.{ℕ};
    ghost use Rattle.station_reader.specs.Forms.{number_at};
    ghost use Rattle.station_reader.specs.Rows.{link_rows, port_row};

    ghost rows = { link_rows };

    ghost Fields = { ℕ };

    ghost fields = { λ link. link.port };

    ghost row_of = { number_at port_row };

    fn read(_alloc: Global, table: &Table) -> Result<LinkRow, AllocError> {
        Ok(LinkRow {
            port: number(table, &PORT_ROW) as u16,
        })
    }
}

impl Item for SharedKey {
    ghost use Rattle.packet_auth.specs.Keys.{KeyFields};
    ghost use Rattle.station_values.specs.KeptStation.{key_kept};
    ghost use Rattle.station_reader.specs.Rows.{key_of, key_rows};

    ghost rows = { key_rows };

    ghost Fields = { KeyFields };

    ghost fields = { key_kept };

    ghost row_of = { key_of };

    fn read(alloc: Global, table: &Table) -> Result<SharedKey, AllocError> {
        Ok(SharedKey {
            id: number(table, &ID_ROW) as u32,
            secret: String::from_str(alloc, secret(table))?,
        })
    }
}

impl Item for DeniedNet {
    ghost use Rattle.kiss_gate.specs.declared.nets.Net.{Net};
    ghost use Rattle.station_values.specs.KeptStation.{net_kept};
    ghost use Rattle.station_reader.specs.Rows.{deny_rows, net_of};

    ghost rows = { deny_rows };

    ghost Fields = { Net };

    ghost fields = { net_kept };

    ghost row_of = { net_of };

    fn read(_alloc: Global, table: &Table) -> Result<DeniedNet, AllocError> {
        Ok(cidr(table))
    }
}
