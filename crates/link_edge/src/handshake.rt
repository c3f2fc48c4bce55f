//! The opening handshake of either end, which goes on call by call.

use crate::mask::EndKeys;
use crate::sizes::{client_config, server_config};
use http::Request;
use std::alloc::Global;
use std::net::TcpStream;
use std::random::RandomSource;
use tungstenite::handshake::{HandshakeError, MidHandshake, client, server};
use tungstenite::protocol::RandomKeys;
use tungstenite::{ClientHandshake, Error, NoCallback, NoMask, Role, ServerHandshake, WebSocket};

/// A WebSocket over TCP, of either end.
pub type Socket<R> = WebSocket<TcpStream, EndKeys<R>>;

/// A handshake that is not complete.
#[derive(Drop)]
pub enum Handshake<R: RandomSource + Drop> {
    /// A server's, which waits for the client's request.
    Server(MidHandshake<ServerHandshake<TcpStream, NoCallback>>),
    /// A client's, which waits for the server's answer.
    Client(MidHandshake<ClientHandshake<TcpStream, EndKeys<R>>>),
}

/// What a round of a handshake gives.
#[derive(Drop)]
pub enum Round<R: RandomSource + Drop> {
    /// The socket that the handshake was for.
    Complete(Socket<R>),
    /// The peer has not done its part.
    Waits(Handshake<R>),
    /// It is no handshake, or the stream failed.
    Failed,
}

// A server's socket, with the keys that both ends have in common.
fn with_keys<R: RandomSource + Drop>(
    alloc: Global,
    socket: WebSocket<TcpStream, NoMask>,
) -> Socket<R> {
    let stream = socket.into_inner();
    let config = Some(server_config());
    WebSocket::from_raw_socket(alloc, stream, EndKeys::Unmasked, Role::Server, config)
}

impl<R: RandomSource + Copy + Drop> Handshake<R> {
    /// A server's handshake, before its first round.
    pub fn of_server(alloc: Global, stream: TcpStream) -> Handshake<R> {
        let config = Some(server_config());
        Handshake::Server(server::start(alloc, stream, NoCallback, config))
    }

    /// A client's handshake, before its first round.
    pub fn of_client(
        alloc: Global,
        source: R,
        request: Request<()>,
        stream: TcpStream,
    ) -> Result<Handshake<R>, Error> {
        let mut nonce = [0; 16];
        source.fill_bytes(&mut nonce)?;
        let keys = EndKeys::Random(RandomKeys::new(source));
        let config = Some(client_config());
        let mid = client::start(alloc, nonce, keys, request, stream, config)?;
        Ok(Handshake::Client(mid))
    }

    /// Goes on until the stream would wait.
    pub fn go_on(self, alloc: Global) -> Round<R> {
        match self {
            Handshake::Server(mid) => match mid.handshake() {
                Ok(socket) => Round::Complete(with_keys(alloc, socket)),
                Err(HandshakeError::Interrupted(mid)) => Round::Waits(Handshake::Server(mid)),
                Err(HandshakeError::Failure(_)) => Round::Failed,
            },
            Handshake::Client(mid) => match mid.handshake() {
                Ok((socket, _)) => Round::Complete(socket),
                Err(HandshakeError::Interrupted(mid)) => Round::Waits(Handshake::Client(mid)),
                Err(HandshakeError::Failure(_)) => Round::Failed,
            },
        }
    }
}
