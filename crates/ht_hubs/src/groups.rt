//! A registry of groups and users, alone and with many members.

use crate::report::push_numbers;
use crate::words::name;
use hg_groups::Registry;
use ht_kit::{Stop, first_word, number};
use hv_value::Text;
use std::alloc::{AllocError, Global};

/// A registry, and the names whose members are printed after each change.
#[derive(Drop)]
pub struct Groups {
    registry: Registry,
    watched: Vec<Text>,
}

impl Groups {
    pub fn start(alloc: Global) -> Result<Groups, AllocError> {
        Ok(Groups {
            registry: Registry::start(alloc)?,
            watched: Vec::new(alloc),
        })
    }

    /// What the registry answers to the words.
    pub fn ask(&mut self, alloc: Global, words: &str) -> Result<String, Stop> {
        let (word, rest) = first_word(words);
        match word {
            "new" => self.renew(alloc, rest),
            "members" => self.told(alloc, &name(alloc, rest)?),
            "fill" => self.fill(alloc, rest),
            "sizes" => self.sizes(alloc, number(rest)?),
            "empty" => self.empty(alloc, number(rest)?),
            _ => self.change(alloc, word, rest),
        }
    }

    fn renew(&mut self, alloc: Global, words: &str) -> Result<String, Stop> {
        let mut watched = Vec::new(alloc);
        if !words.is_empty() {
            for word in words.split(' ') {
                watched.push(name(alloc, word)?)?;
            }
        }
        self.registry = Registry::start(alloc)?;
        self.watched = watched;
        Ok(String::from_str(alloc, "a registry")?)
    }

    /// The answer to a change, and then the watched names.
    fn change(&mut self, alloc: Global, word: &str, words: &str) -> Result<String, Stop> {
        let answer = self.changed(alloc, word, words)?;
        let mut told = String::from_str(alloc, answer)?;
        for name in &self.watched {
            told.push_str(" | ")?;
            push_members(&mut told, alloc, &self.registry, name)?;
        }
        Ok(told)
    }

    fn changed(&mut self, alloc: Global, word: &str, words: &str) -> Result<&'static str, Stop> {
        let (first, rest) = first_word(words);
        if word == "gone" {
            self.registry.gone(number(first)?);
            return Ok("gone");
        }
        let (called, conn) = (name(alloc, first)?, number(rest)?);
        match word {
            "join" => {
                let may = self.registry.join(alloc, &called, conn)?;
                Ok(if may { "joined" } else { "too many" })
            }
            "remove" => {
                let was_there = self.registry.remove(&called, conn);
                Ok(if was_there { "left" } else { "not there" })
            }
            "name" => {
                self.registry.name(alloc, &called, conn)?;
                Ok("named")
            }
            _ => Err(Stop::Refused),
        }
    }

    fn told(&self, alloc: Global, name: &Text) -> Result<String, Stop> {
        let mut told = String::new(alloc);
        push_members(&mut told, alloc, &self.registry, name)?;
        Ok(told)
    }

    /// How many of the joins were carried out.
    fn fill(&mut self, alloc: Global, words: &str) -> Result<String, Stop> {
        let (conns, rest) = first_word(words);
        let (each, rest) = first_word(rest);
        let (groups, users) = first_word(rest);
        let names = names(alloc, number(groups)?)?;
        let (each, users) = (number(each)?, number(users)?);
        let mut joined: u64 = 0;
        for conn in 0..number(conns)? {
            for k in 0..each {
                if self.registry.join(alloc, group_of(&names, conn, k)?, conn)? {
                    joined = joined.saturating_add(1);
                }
            }
            let user = user_of(&names, conn, users)?;
            self.registry.name(alloc, user, conn)?;
        }
        Ok(format!(in alloc; "{joined} joined")?)
    }

    fn sizes(&self, alloc: Global, groups: u64) -> Result<String, Stop> {
        let mut members: usize = 0;
        let mut conns: usize = 0;
        for name in &names(alloc, groups)? {
            members = members.saturating_add(self.registry.members(alloc, name)?.len());
            conns = conns.saturating_add(self.registry.of_user(alloc, name)?.len());
        }
        Ok(format!(in alloc; "{members} members, {conns} connections of users")?)
    }

    fn empty(&mut self, alloc: Global, conns: u64) -> Result<String, Stop> {
        for conn in 0..conns {
            self.registry.gone(conn);
        }
        Ok(String::from_str(alloc, "gone")?)
    }
}

/// The members of the group, and the connections of the user.
fn push_members(
    out: &mut String,
    alloc: Global,
    registry: &Registry,
    name: &Text,
) -> Result<(), AllocError> {
    push_numbers(out, &registry.members(alloc, name)?)?;
    out.push_str(" ")?;
    push_numbers(out, &registry.of_user(alloc, name)?)
}

/// The names by number. Some begin as others do, and the first is empty.
fn names(alloc: Global, count: u64) -> Result<Vec<Text>, AllocError> {
    let mut names = Vec::new(alloc);
    for number in 0..count {
        let text = if number == 0 {
            String::new(alloc)
        } else {
            format!(in alloc; "{number}")?
        };
        names.push(Text::of(alloc, text.as_str())?)?;
    }
    Ok(names)
}

/// The group that a connection joins as its `k`th.
fn group_of(names: &[Text], conn: u64, k: u64) -> Result<&Text, Stop> {
    let number = conn.wrapping_mul(17).wrapping_add(k.wrapping_mul(31));
    let place = number.checked_rem(names.len() as u64).ok_or(Stop::Refused)?;
    names.get(place as usize).ok_or(Stop::Refused)
}

/// The user whose a connection is.
fn user_of(names: &[Text], conn: u64, users: u64) -> Result<&Text, Stop> {
    let place = conn.checked_rem(users).ok_or(Stop::Refused)?;
    names.get(place as usize).ok_or(Stop::Refused)
}
