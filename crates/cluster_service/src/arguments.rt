//! The arguments of the command line.

ghost use Rattle.std.specs.Prelude.{◌≡◌, ◌≤◌, IfSome};
ghost use Rattle.std.specs.Option.{unwrap_or};
ghost use Rattle.cluster_service.specs.Arguments.{command_of, first_router_of, named_by, node_count_of, pipe_by, routers_of, serve_by, server_in, shards_of, sim_by};
ghost use Rattle.cluster_service.specs.Numbers.{most_routers, most_shards};

use crate::options::{Given, read_options};
use bson_values::Text;

/// The command of the arguments.
#[derive(Clone, Copy, Debug, PartialEq, Eq)]
pub enum Command {
    /// One connection is served, by so many shards and one router.
    Pipe { shards: u32 },
    /// A script of events is played, with so many shards and routers.
    Sim { shards: u32, routers: u32 },
    /// So many connections to a port are served, by shards and routers.
    Serve(Server),
}

/// A server: its port, how many shards and routers it has, and how many connections it serves.
#[derive(Clone, Copy, Debug, PartialEq, Eq)]
pub struct Server {
    pub port: u16,
    pub shards: u32,
    pub routers: u32,
    pub sessions: u32,
}

impl Command {
    /// Returns how many shards the command has.
    pub fn shards(self) -> u32
        ensures { result ≡ shards_of self }
    {
        match self {
            Command::Pipe { shards } => shards,
            Command::Sim { shards, .. } => shards,
            Command::Serve(server) => server.shards,
        }
    }

    /// Returns how many routers the command has.
    pub fn routers(self) -> u32
        ensures { result ≡ routers_of self }
    {
        match self {
            Command::Pipe { .. } => 1,
            Command::Sim { routers, .. } => routers,
            Command::Serve(server) => server.routers,
        }
    }

    /// Returns the number of its first router: the catalogue and the shards come before it.
    pub fn first_router(self) -> usize
        ensures { result ≡ first_router_of self }
    {
        1 + self.shards() as usize
    }

    /// Returns the server, if the command is one.
    pub fn server(self) -> Option<Server>
        ensures { result ≡ server_in self }
    {
        match self {
            Command::Serve(server) => Some(server),
            _ => None,
        }
    }
}

impl Given {
    /// Returns the command `pipe`, if these are its options.
    fn pipe(self) -> Option<Command>
        ensures { result ≡ pipe_by self.port self.routers self.sessions self.waiting (unwrap_or self.shards 1) }
    {
        match self {
            Given {
                port: None,
                shards,
                routers: None,
                sessions: None,
                waiting: None,
            } => Some(Command::Pipe {
                shards: shards.unwrap_or(1),
            }),
            _ => None,
        }
    }

    /// Returns the command `sim`, if these are its options.
    fn sim(self) -> Option<Command>
        ensures { result ≡ sim_by self.port self.sessions self.waiting (unwrap_or self.shards 2) (unwrap_or self.routers 1) }
    {
        match self {
            Given {
                port: None,
                shards,
                routers,
                sessions: None,
                waiting: None,
            } => Some(Command::Sim {
                shards: shards.unwrap_or(2),
                routers: routers.unwrap_or(1),
            }),
            _ => None,
        }
    }

    /// Returns the command `serve`, if these are its options.
    fn serve(self) -> Option<Command>
        ensures { result ≡ serve_by self.port self.sessions self.waiting (unwrap_or self.shards 2) (unwrap_or self.routers 1) }
    {
        match self {
            Given {
                port: Some(port),
                shards,
                routers,
                sessions: Some(sessions),
                waiting: None,
            } => Some(Command::Serve(Server {
                port,
                shards: shards.unwrap_or(2),
                routers: routers.unwrap_or(1),
                sessions,
            })),
            _ => None,
        }
    }

    /// Returns the command that a word names, if these are its options.
    fn command(self, word: &str) -> Option<Command>
        ensures { result ≡ named_by word.now self }
    {
        if word == "pipe" {
            return self.pipe();
        }
        if word == "sim" {
            return self.sim();
        }
        if word == "serve" {
            return self.serve();
        }
        None
    }
}

/// Returns the command that the arguments are: `pipe`, with the option `--shards n` if wanted; or `sim`, with `--shards n` and `--routers m` if wanted; or
/// `serve`, with these and with `--port p` and `--sessions k`. Options are in any order, each also as `--port=p`. There are 1 to 16 shards, with `pipe` one
/// if no number is given and else two, and 1 to 8 routers, one if no number is given. It takes no memory. Returns `None` where they are refused: no argument,
/// another one, an option twice or missing, `--`, or a value that is no number or not in range.
pub fn read_command(words: &[Text]) -> Option<Command>
    ensures command { result ≡ command_of words.now }
    ensures some_shards { IfSome result (λ command. 1 ≤ shards_of command) }
    ensures few_shards { IfSome result (λ command. shards_of command ≤ most_shards) }
    ensures some { IfSome result (λ command. 1 ≤ routers_of command) }
    ensures few { IfSome result (λ command. routers_of command ≤ most_routers) }
{
    match words {
        [word, rest @ ..] => read_options(rest)?.command(word.as_str()),
        _ => None,
    }
}

/// Returns how many nodes the arguments of the command line start, and so how many disks `run` takes: the catalogue, the shards and
/// the routers. `None` exactly where these are refused.
pub fn node_count(words: &[Text]) -> Option<usize>
    ensures count { result ≡ node_count_of words.now }
    ensures few { IfSome result (λ count. count ≤ 25) }
{
    match read_command(words) {
        Some(command) => Some(command.first_router() + command.routers() as usize),
        None => None,
    }
}
