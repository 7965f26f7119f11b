//! The lower port of the server and of a gateway, where media objects pass.
//!
//! A gateway tells its objects: one that is asked for at once, all of them on the connection that it opened itself. The server
//! keeps the objects of each device, and asks for all of them whenever it opened a connection.
#![tactic(auto)]

mod connection;
mod due;
mod gateway;
mod in_flight;
mod replies;
mod server;
mod taking;

pub use connection::OwnConnection;
pub use due::Due;
pub use gateway::gateway_port;
pub use in_flight::InFlight;
pub use server::ServerPort;
