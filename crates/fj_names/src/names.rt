// The names of a deck, as its declarations are read one after another.
ghost use Rattle.std.specs.Prelude.{◌≡◌, ◌∷◌, [], unwrap_or};
ghost use Rattle.fj_value.specs.Kind.{text_length};
ghost use Rattle.fj_names.specs.Giving.{Gives, each};
ghost use Rattle.std.specs.Option.{option_copied};
ghost use Rattle.fj_names.specs.Scope.{empty, named, found, members};
ghost use Rattle.fj_names.specs.Declaring.{with_all, number_of, with_declaration, with_group, is_within, Declares, Groups};

use crate::fault::Fault;
use crate::limits::{capped, narrow};
use crate::scope::{Found, Named, Namelist, Scope};
use fj_statement::{Variable, Variables, Vars};
use fj_syntax::{Declaration, Designator, Group};
use fj_value::{Items, Kind, Text};
use std::alloc::Global;
use std::collections::BTreeMap;
use std::marker::Model;

/// The most variables, places and bytes of characters that a deck may declare.
const MOST_VARIABLES: usize = 4_096;

const MOST_PLACES: u64 = 1_000_000;

const MOST_CHARACTERS: u64 = 16_777_216;

/// What is declared so far, with an index of its names. Contracts see what is declared.
#[derive(Drop)]
pub struct Names {
    scope: Scope,
    index: BTreeMap<Vec<u8>, Named>,
    /// The places of the variables, up to one more than a deck may declare.
    places: u64,
    /// The bytes of characters of the variables, up to one more than a deck may declare.
    characters: u64,
}

impl Model for Names {
    ghost use Rattle.fj_names.specs.declared.scope.Scope.{Scope};
    ghost use Rattle.fj_names.specs.Index.{IsIndexed};

    ghost Value = { Scope };

    ghost view = { λ names. names.scope };

    ghost invariant = { λ names. IsIndexed names.scope names.index names.places names.characters };
}

/// The length of a kind of characters; 0 of the others.
fn text_length(kind: Kind) -> u32
    ensures { result ≡ unwrap_or (text_length kind) 0 }
{
    match kind {
        Kind::Chars(len) => len,
        Kind::Int4 | Kind::Int8 | Kind::Logical => 0,
    }
}

impl Names {
    pub fn new(alloc: Global) -> Names
        ensures { result ≡ empty }
    {
        Names {
            scope: Scope {
                variables: Items::new(alloc),
                groups: Items::new(alloc),
                lines: Items::new(alloc),
            },
            index: BTreeMap::new(alloc),
            places: 0,
            characters: 0,
        }
    }

    pub fn variables(&self) -> &Variables
        ensures { result.now ≡ self.now.variables }
    {
        &self.scope.variables
    }

    /// The variables, and the lines of the groups.
    pub fn into_parts(self) -> (Variables, Items<u32>)
        ensures variables { result.0 ≡ self.variables }
        ensures lines { result.1 ≡ self.lines }
    {
        let Names { scope, .. } = self;
        let Scope {
            variables,
            lines,
            ..
        } = scope;
        (variables, lines)
    }

    /// What a name stands for.
    fn named(&self, name: &[u8]) -> Option<Named>
        ensures { result ≡ named self.now name.now }
    {
        self.index.get(name).copied()
    }

    /// The variable of a name, which is in upper case; `None` where it is none's.
    #[tactic(auto, unfolding(crate::specs::Scope::found))]
    pub fn find(&self, name: &[u8]) -> Option<Found>
        ensures { result ≡ found self.now name.now }
    {
        match self.named(name)? {
            Named::Variable(var) => {
                let variable = self.scope.variables.get(var as usize)?;
                Some(Found {
                    var,
                    kind: variable.kind,
                    count: variable.count,
                })
            }
            Named::Group(_) => None,
        }
    }

    /// The members of the group of a name, in order; `None` where it is no group's.
    #[tactic(auto, unfolding(crate::specs::Scope::members))]
    pub fn members(&self, name: &[u8]) -> Option<&Vars>
        ensures { option_copied result ≡ members self.now name.now }
    {
        match self.named(name)? {
            Named::Variable(_) => None,
            Named::Group(number) => {
                let group = self.scope.groups.get(number as usize)?;
                Some(&group.vars)
            }
        }
    }

    /// With the variable of a designator in a type declaration.
    #[tactic(auto, unfolding(crate::specs::Scope::named))]
    fn with_variable(self, line: u32, kind: Kind, designator: &Designator) -> Result<Names, Fault>
        ensures { Gives result (with_all self line kind (designator.now ∷ [])) }
    {
        if self.named(designator.name.bytes()).is_some() {
            return Err(Fault::NoMeaning);
        }
        let Names {
            scope,
            index,
            places,
            characters,
        } = self;
        let mut scope = scope;
        let mut index = index;
        let var = narrow(scope.variables.len())?;
        let count = designator.number.unwrap_or(0);
        let name = designator.name.try_clone()?;
        let key = Vec::from_slice(name.allocator(), name.bytes())?;
        scope.variables.push(Variable {
            name,
            kind,
            count,
            line,
        })?;
        index.insert(key, Named::Variable(var))?;
        let count = count.max(1);
        let places = capped(places, count, 1, MOST_PLACES);
        let characters = capped(characters, count, text_length(kind), MOST_CHARACTERS);
        Ok(Names {
            scope,
            index,
            places,
            characters,
        })
    }

    /// With a line of a type declaration.
    #[tactic(auto, unfolding(crate::specs::Declaring::with_declaration))]
    fn with_declaration(self, line: u32, declaration: &Declaration) -> Result<Names, Fault>
        ensures { Gives result (with_declaration self line declaration.now) }
    {
        let mut names = self;
        for designator in declaration.entities.as_slice() {
            names = names.with_variable(line, declaration.kind, designator)?;
        }
        Ok(names)
    }

    /// Whether no limit on variables is passed.
    fn is_within(&self) -> bool
        ensures { result ≡ is_within self.now.variables }
    {
        self.scope.variables.len() <= MOST_VARIABLES
            && self.places <= MOST_PLACES
            && self.characters <= MOST_CHARACTERS
    }

    /// Adds a line of a type declaration (ISO/IEC 1539-1:2004, 5.1). `NoMeaning` comes where a name is declared already, `TooMany`
    /// past 4,096 variables, 1,000,000 places or 16,777,216 bytes of characters. After a refusal the names are of no account.
    pub fn declare(&mut self, line: u32, declaration: Declaration) -> Result<(), Fault>
        ensures { Declares (with_declaration self.old line declaration) result self.new }
    {
        let empty = Names::new(self.scope.variables.allocator());
        let names = std::mem::replace(self, empty);
        let names = names.with_declaration(line, &declaration)?;
        let within = names.is_within();
        *self = names;
        if within { Ok(()) } else { Err(Fault::TooMany) }
    }

    /// The numbers of variables of these names.
    fn vars_of(&self, members: &Items<Text>) -> Result<Vars, Fault>
        ensures { Gives result (each (number_of self.now) members.now) }
    {
        let mut vars = Items::new(members.allocator());
        for member in members.as_slice() {
            match self.find(member.bytes()) {
                Some(found) => vars.push(found.var)?,
                None => return Err(Fault::NoMeaning),
            }
        }
        Ok(vars)
    }

    /// With a line of NAMELIST.
    #[tactic(auto, unfolding(crate::specs::Declaring::with_group, crate::specs::Scope::named))]
    fn with_group(self, line: u32, group: Group) -> Result<Names, Fault>
        ensures { Gives result (with_group self line group) }
    {
        let Group { name, members } = group;
        if self.named(name.bytes()).is_some() {
            return Err(Fault::NoMeaning);
        }
        let vars = self.vars_of(&members)?;
        let Names {
            scope,
            index,
            places,
            characters,
        } = self;
        let mut scope = scope;
        let mut index = index;
        let number = narrow(scope.groups.len())?;
        let key = Vec::from_slice(name.allocator(), name.bytes())?;
        scope.groups.push(Namelist { name, vars })?;
        scope.lines.push(line)?;
        index.insert(key, Named::Group(number))?;
        Ok(Names {
            scope,
            index,
            places,
            characters,
        })
    }

    /// Adds a line of NAMELIST (ISO/IEC 1539-1:2004, 5.4). `NoMeaning` comes where the group's name is declared already, or a
    /// member is no variable. After a refusal the names are of no account.
    pub fn group(&mut self, line: u32, group: Group) -> Result<(), Fault>
        ensures { Groups (with_group self.old line group) result self.new }
    {
        let empty = Names::new(self.scope.variables.allocator());
        let names = std::mem::replace(self, empty);
        *self = names.with_group(line, group)?;
        Ok(())
    }
}
