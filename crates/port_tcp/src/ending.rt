//! The end of a program one of whose ports ended.
use crate::common::Common;
use connection_lines::shut_line;
use port_events::Side;
use stamped_lines::say;
use std::alloc::Global;
use std::net::{IpAddr, Ipv4Addr, Ipv6Addr, Net, TcpStream};
use std::time::Clock;

// Where a port that listens at this address is reached from this machine.
fn near_address(address: IpAddr) -> IpAddr {
    match address {
        IpAddr::V4(own) => {
            if own.is_unspecified() {
                IpAddr::V4(Ipv4Addr::LOCALHOST)
            } else {
                address
            }
        }
        IpAddr::V6(own) => {
            if own.is_unspecified() {
                IpAddr::V6(Ipv6Addr::LOCALHOST)
            } else {
                address
            }
        }
    }
}

// Opens a connection to the port, if it awaits one, so that it sees that the program is to end.
fn wake_port<R: Net<Stream = TcpStream>>(rt: &R, common: &Common, side: Side) {
    if let Some(port) = common.at(side).listens() {
        let _ = TcpStream::connect(rt, (near_address(common.address()), port));
    }
}

/// Wakes the ports that await a connection, where another one ended.
pub(crate) fn wake_ports<R: Net<Stream = TcpStream>>(rt: &R, common: &Common) {
    if common.ended().is_some() {
        wake_port(rt, common, Side::Upper);
        wake_port(rt, common, Side::Lower);
        wake_port(rt, common, Side::Editor);
    }
}

/// Whether the program is to end, since one of its ports did. The first who asks says so.
pub(crate) fn is_ending<R: Eprint + Clock>(rt: &R, alloc: Global, common: &Common) -> bool {
    match common.ended() {
        Some(side) => {
            if common.is_news() {
                say(rt, alloc, true, shut_line(alloc, side));
            }
            true
        }
        None => false,
    }
}
