//! Connections between the server and its devices.
ghost use Rattle.std.specs.Prelude.{◌≡◌, false, []};

use crate::packet::EncodedPacket;
use std::alloc::Global;
use std::collections::VecDeque;

/// The end that opened a connection.
#[derive(Clone, Copy, Debug, PartialEq, Eq)]
pub enum Opener {
    /// the server
    Server,
    /// the device
    Device,
}

/// A connection: its device, from 1, who opened it, whether the other end accepted it, and for each direction the messages
/// that are unread, and whether later ones are lost.
#[derive(Drop)]
pub struct Connection {
    pub device: u32,
    pub opener: Opener,
    pub accepted: bool,
    pub to_device: VecDeque<EncodedPacket>,
    pub to_server: VecDeque<EncodedPacket>,
    pub lost_device: bool,
    pub lost_server: bool,
}

impl Connection {
    /// A connection on which nothing was written yet. It takes no memory.
    pub fn new(alloc: Global, device: u32, opener: Opener) -> Self
        ensures made { result ≡ record { device = device; opener = opener; accepted = false; to_device = result.to_device; to_server = result.to_server; lost_device = false; lost_server = false } }
        ensures to_device { result.to_device.items ≡ [] }
        ensures to_server { result.to_server.items ≡ [] }
    {
        Connection {
            device,
            opener,
            accepted: false,
            to_device: VecDeque::new(alloc),
            to_server: VecDeque::new(alloc),
            lost_device: false,
            lost_server: false,
        }
    }
}
