//! The words that the definitions of this crate share with the code above: a keeper's rows, what it was asked, and the methods of the
//! rooms hub.

use hv_value::{Text, Texts};

/// The most texts for which `History` of the rooms hub can ask.
pub const MOST_RECALLED: u32 = 100;

/// The most bytes of a room's name.
pub const MOST_NAME: usize = 256;

/// The most groups in which a connection is.
pub const MOST_GROUPS: usize = 256;

/// A row that a keeper keeps: a text that was said in a room.
#[derive(Drop, PartialEq, Eq)]
pub struct Row {
    pub room: Text,
    /// The name of who said it.
    pub who: Text,
    pub text: Text,
}

/// What a keeper was asked, and what it answered. The outer `Option` of an answer is `None` if the keeper failed.
#[derive(Drop, PartialEq, Eq)]
pub enum Asked {
    /// Which user has this access token: his name, or `None` if there is none.
    User {
        token: Text,
        name: Option<Option<Text>>,
    },
    /// How many rows there are.
    Rows {
        count: Option<u64>,
    },
    /// To keep a row.
    Log {
        room: Text,
        who: Text,
        text: Text,
        is_resumable: bool,
    },
    /// The texts of the room's last rows, `most` of them at most.
    History {
        room: Text,
        most: u32,
        texts: Option<Texts>,
    },
    /// To add a user. The answer is whether no user had this access token.
    AddUser {
        token: Text,
        name: Text,
        is_new: Option<bool>,
    },
}

/// A method of the rooms hub.
#[derive(Clone, Copy, Debug, PartialEq, Eq)]
pub enum RoomsMethod {
    /// The caller's connection joins a room.
    Join,
    /// The caller's connection leaves a room.
    Leave,
    /// A text is kept, and said to all in a room.
    Post,
    /// A text is said to all connections of a user.
    Tell,
    /// The last texts of a room.
    History,
}
