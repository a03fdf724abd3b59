//! The table of window classes and registered messages.

ghost use Rattle.std.specs.Prelude.{◌≡◌, ◌+◌, ◌↔◌, ◌==◌, length, nat_le, Some, IfOk, OnOk, OnErr};
ghost use Rattle.win_num.specs.declared.code.Code.{Code};
ghost use Rattle.win_class.specs.ClassTable.{class_in, message_refusal, no_classes, number_in, register_refusal, unregister_refusal, with_class, with_message, without_class};

use indexmap::{IndexMap, IndexSet};
use std::alloc::Global;
use std::marker::Model;
use win_num::{Code, Fault};

/// How many classes there may be at a time.
const CLASS_LIMIT: usize = 64;

/// How many messages may be registered.
const MESSAGE_LIMIT: usize = 16384;

/// The number of the first registered message (Microsoft, RegisterWindowMessage function).
const FIRST_MESSAGE: u32 = 49152;

/// A window class (Microsoft, WNDCLASS structure).
#[derive(Clone, Copy, Debug, PartialEq, Eq)]
pub struct Class {
    /// The number that its registration answered, from 1 in order of registration.
    pub atom: u32,
    /// The number of its window procedure.
    pub proc_no: u32,
    /// The colour that erases its windows.
    pub colour: u8,
}

/// The window classes that are registered, by name, and the registered messages. A name is a number.
/// Contracts see the classes with their names in order of registration, how many were ever registered,
/// and the names of the messages in order.
#[derive(Drop)]
pub struct Classes {
    classes: IndexMap<u32, Class>,
    registered: u32,
    messages: IndexSet<u32>,
}

impl Model for Classes {
    ghost use Rattle.std.specs.Prelude.{◌≤◌, length, nat_eq};
    ghost use Rattle.indexmap.specs.IndexMap.{IsUnique};
    ghost use Rattle.win_class.specs.ClassTable.{ClassTable};

    ghost Value = { ClassTable };

    ghost view = { λ c. record { classes = c.classes.entries; registered = c.registered; messages = c.messages.keys } };

    ghost invariant = { λ c. (length c.classes.entries ≤ 64) × (length c.messages.keys ≤ 16384) × IsUnique nat_eq c.classes };
}

impl Classes {
    /// No class and no message. Takes no memory.
    pub fn new(alloc: Global) -> Classes
        ensures { result ≡ no_classes }
    {
        Classes {
            classes: IndexMap::new(alloc),
            registered: 0,
            messages: IndexSet::new(alloc),
        }
    }

    /// Registers a class and answers its atom: 1, 2 and so on in order of registration (Microsoft,
    /// RegisterClass function). `Win(1410)` comes exactly where the name has a class, else `Full` where
    /// 64 classes are there or all 4294967295 atoms were given. After an error the table is unchanged.
    pub fn register(&mut self, name: u32, proc_no: u32, colour: u8) -> Result<u32, Fault>
        ensures atom { IfOk result (λ atom. atom ≡ self.old.registered + 1) }
        ensures ok { OnOk result (self.new ≡ with_class self.old name proc_no colour) }
        ensures refused { (code : Code) → (result ≡ Err (Fault.Refused code)) ↔ (register_refusal self.old name ≡ Some code) }
        ensures err { OnErr result (self.new ≡ self.old) }
    {
        if self.classes.contains_key(&name) {
            return Err(Fault::Refused(Code::Win(1410)));
        }
        if self.is_full() || self.registered == u32::MAX {
            return Err(Fault::Refused(Code::Full));
        }
        let atom = self.registered + 1;
        let class = Class {
            atom,
            proc_no,
            colour,
        };
        match self.classes.insert(name, class) {
            Ok(_) => {
                self.registered = atom;
                Ok(atom)
            }
            Err(_) => Err(Fault::Memory),
        }
    }

    /// Forgets the class of the name (Microsoft, UnregisterClass function); `used` says whether a live
    /// window has it. `Win(1411)` comes exactly where there is no such class, else `Win(1412)` where it is
    /// used. After an error the table is unchanged.
    pub fn unregister(&mut self, name: u32, used: bool) -> Result<(), Code>
        ensures ok { OnOk result (self.new ≡ without_class self.old name) }
        ensures refused { (code : Code) → (result ≡ Err code) ↔ (unregister_refusal self.old name used ≡ Some code) }
        ensures err { OnErr result (self.new ≡ self.old) }
    {
        if !self.classes.contains_key(&name) {
            return Err(Code::Win(1411));
        }
        if used {
            return Err(Code::Win(1412));
        }
        let _ = self.classes.shift_remove(&name);
        Ok(())
    }

    /// The class of the name. None comes exactly where no class has it.
    pub fn class(&self, name: u32) -> Option<Class>
        ensures { result ≡ class_in self.now name }
    {
        self.classes.get(&name).copied()
    }

    /// How many classes are registered, 64 at most.
    pub fn len(&self) -> usize
        ensures { result ≡ length self.now.classes }
    {
        self.classes.len()
    }

    /// Whether as many classes are registered as may be, 64.
    pub fn is_full(&self) -> bool
        ensures exact { result ≡ (length self.now.classes == 64) }
        ensures limit { result ≡ nat_le 64 (length self.now.classes) }
    {
        self.classes.len() == CLASS_LIMIT
    }

    /// How many classes were ever registered, which is the atom of the last.
    pub fn registered(&self) -> u32
        ensures { result ≡ self.now.registered }
    {
        self.registered
    }

    /// The number of the registered message of this name. None comes exactly where no message has it.
    pub fn number_of(&self, name: u32) -> Option<u32>
        ensures { result ≡ number_in self.now name }
    {
        match self.messages.get_index_of(&name) {
            Some(place) => Some(FIRST_MESSAGE + place as u32),
            None => None,
        }
    }

    /// How many messages are registered, 16,384 at most.
    pub fn message_count(&self) -> usize
        ensures { result ≡ length self.now.messages }
    {
        self.messages.len()
    }

    /// Whether as many messages are registered as may be, 16,384.
    pub fn messages_are_full(&self) -> bool
        ensures exact { result ≡ (length self.now.messages == 16384) }
        ensures limit { result ≡ nat_le 16384 (length self.now.messages) }
    {
        self.messages.len() == MESSAGE_LIMIT
    }

    /// The number of the message of this name, which is registered if it isn't (Microsoft,
    /// RegisterWindowMessage function): 49152, 49153 and so on in order of registration. `Full` comes
    /// exactly where the name has no number and 16,384 messages are registered. After an error the table
    /// is unchanged.
    pub fn message_number(&mut self, name: u32) -> Result<u32, Fault>
        ensures number { IfOk result (λ number. number_in self.new name ≡ Some number) }
        ensures ok { OnOk result (self.new ≡ with_message self.old name) }
        ensures refused { (code : Code) → (result ≡ Err (Fault.Refused code)) ↔ (message_refusal self.old name ≡ Some code) }
        ensures err { OnErr result (self.new ≡ self.old) }
    {
        if let Some(place) = self.messages.get_index_of(&name) {
            return Ok(FIRST_MESSAGE + place as u32);
        }
        let place = self.messages.len();
        if self.messages_are_full() {
            return Err(Fault::Refused(Code::Full));
        }
        match self.messages.insert(name) {
            Ok(_) => {}
            Err(_) => return Err(Fault::Memory),
        }
        Ok(FIRST_MESSAGE + place as u32)
    }
}
