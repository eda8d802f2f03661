//! The options of the commands: in any order, each at most once, as `--name value` or `--name=value`.

ghost use Rattle.std.specs.Prelude.{◌≡◌, ◌≤◌, Some, is_some};
ghost use Rattle.cluster_service.specs.Numbers.{number_in};
ghost use Rattle.cluster_service.specs.Options.{after_word, assigned, awaited, given_for, most_of, name_in, nothing_given, options_in, set_in, with_value, word_in};

use bson_values::Text;

/// The most shards that a command may have.
const MOST_SHARDS: u64 = 16;

/// The most routers that a command may have.
const MOST_ROUTERS: u64 = 8;

/// An option of a command.
#[derive(Clone, Copy, Debug, PartialEq, Eq)]
pub(crate) enum Name {
    Port,
    Shards,
    Routers,
    Sessions,
}

/// What words say: the value of each option that was given, and the option whose value is the next word.
#[derive(Clone, Copy, Debug, PartialEq, Eq)]
pub(crate) struct Given {
    pub(crate) port: Option<u16>,
    pub(crate) shards: Option<u32>,
    pub(crate) routers: Option<u32>,
    pub(crate) sessions: Option<u32>,
    pub(crate) waiting: Option<Name>,
}

impl Name {
    /// Returns the option that a word names, and no more.
    fn of(word: &str) -> Option<Name>
        ensures { result ≡ name_in word.now }
    {
        if word == "--port" {
            return Some(Name::Port);
        }
        if word == "--shards" {
            return Some(Name::Shards);
        }
        if word == "--routers" {
            return Some(Name::Routers);
        }
        if word == "--sessions" {
            return Some(Name::Sessions);
        }
        None
    }

    /// Returns the largest value of the option.
    fn most(self) -> u64
        ensures { result ≡ most_of self }
    {
        match self {
            Name::Port => 65535,
            Name::Shards => MOST_SHARDS,
            Name::Routers => MOST_ROUTERS,
            Name::Sessions => 4_294_967_295,
        }
    }
}

impl Given {
    /// Returns whether a value was given for an option.
    fn has(self, name: Name) -> bool
        ensures { result ≡ is_some (given_for name self) }
    {
        match name {
            Name::Port => self.port.is_some(),
            Name::Shards => self.shards.is_some(),
            Name::Routers => self.routers.is_some(),
            Name::Sessions => self.sessions.is_some(),
        }
    }

    /// Gives an option this value, which is in its range.
    fn set(self, name: Name, value: u64) -> Given
        requires { value ≤ most_of name }
        ensures { result ≡ set_in name value self }
    {
        let mut given = self;
        given.waiting = None;
        match name {
            Name::Port => given.port = Some(value as u16),
            Name::Shards => given.shards = Some(value as u32),
            Name::Routers => given.routers = Some(value as u32),
            Name::Sessions => given.sessions = Some(value as u32),
        }
        given
    }

    /// Gives an option the value that a word says, if it has none yet, and that is a number in its range.
    fn with(self, name: Name, word: &str) -> Option<Given>
        ensures { result ≡ with_value name word.now self }
    {
        if self.has(name) {
            return None;
        }
        match read_number(word) {
            Some(value) if 1 <= value && value <= name.most() => Some(self.set(name, value)),
            _ => None,
        }
    }

    /// Gives the option that was named, if one was, the value that a word says.
    fn assign(self, name: Option<Name>, word: &str) -> Option<Given>
        ensures { result ≡ assigned name word.now self }
    {
        match name {
            Some(name) => self.with(name, word),
            None => None,
        }
    }

    /// Waits for the value of the option that was named, if one was.
    fn wait(self, name: Option<Name>) -> Option<Given>
        ensures { result ≡ awaited name self }
    {
        match name {
            Some(_) => Some(Given {
                waiting: name,
                ..self
            }),
            None => None,
        }
    }

    /// Reads a word that names an option, alone or with its value.
    fn named(self, word: &str) -> Option<Given>
        ensures { result ≡ word_in word.now self }
    {
        match word.split_once('=') {
            Some((name, value)) => self.assign(Name::of(name), value),
            None => self.wait(Name::of(word)),
        }
    }

    /// Reads the next word.
    fn after(self, word: &str) -> Option<Given>
        ensures { result ≡ after_word (Some self) word.now }
    {
        match self.waiting {
            Some(name) => self.with(name, word),
            None => self.named(word),
        }
    }
}

/// Returns the number that an argument is: digits, which may follow a plus.
fn read_number(word: &str) -> Option<u64>
    ensures { result ≡ number_in word.now }
{
    match word.parse::<u64>() {
        Ok(number) => Some(number),
        Err(_) => None,
    }
}

/// Returns what the words after a command say, if they are options.
pub(crate) fn read_options(words: &[Text]) -> Option<Given>
    ensures { result ≡ options_in (Some nothing_given) words.now }
{
    let mut given = Given {
        port: None,
        shards: None,
        routers: None,
        sessions: None,
        waiting: None,
    };
    for word in words {
        given = given.after(word.as_str())?;
    }
    Some(given)
}
