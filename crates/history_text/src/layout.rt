ghost use Rattle.std.specs.Prelude.{◌≡◌, map, option_map};
ghost use Rattle.std.specs.List.{list_any};
ghost use Rattle.history_text.specs.Layout.{role_named, is_usual, role_number, is_for, is_for_name, has_role, field_text, value_of};

use crate::fields::Field;
use crate::item::is_text;

/// What a field says of its line.
#[derive(Clone, Copy, Debug, PartialEq, Eq)]
pub enum Role {
    /// The process that makes the call.
    Process,
    /// Whether the line is an invocation, or which sort of answer.
    Type,
    /// The name of the operation.
    Operation,
    /// The argument, and in an answer the reply.
    Value,
    /// The list of the arguments.
    Arguments,
    /// The key that the call is about.
    Key,
    /// The moment of an event.
    Time,
    /// The moment of a call's invocation.
    Start,
    /// The moment of a call's return.
    End,
    /// The reply of a call.
    Reply,
}

impl Role {
    /// The role with this name.
    pub fn from_name(name: &[u8]) -> Option<Role>
        ensures { result ≡ role_named name.now }
    {
        if is_text(name, "process") {
            return Some(Role::Process);
        }
        if is_text(name, "type") {
            return Some(Role::Type);
        }
        if is_text(name, "operation") {
            return Some(Role::Operation);
        }
        if is_text(name, "value") {
            return Some(Role::Value);
        }
        if is_text(name, "arguments") {
            return Some(Role::Arguments);
        }
        if is_text(name, "key") {
            return Some(Role::Key);
        }
        if is_text(name, "time") {
            return Some(Role::Time);
        }
        if is_text(name, "start") {
            return Some(Role::Start);
        }
        if is_text(name, "end") {
            return Some(Role::End);
        }
        if is_text(name, "reply") {
            return Some(Role::Reply);
        }
        None
    }

    // Whether a field with this name has the role, where the layout says nothing else.
    fn is_named(self, name: &[u8]) -> bool
        ensures { result ≡ is_usual self name.now }
    {
        match self {
            Role::Process => {
                is_text(name, "process") || is_text(name, "client") || is_text(name, "thread")
            }
            Role::Type => is_text(name, "type"),
            Role::Operation => {
                is_text(name, "f") || is_text(name, "op") || is_text(name, "operation")
            }
            Role::Value => is_text(name, "value") || is_text(name, "argument"),
            Role::Arguments => is_text(name, "args") || is_text(name, "arguments"),
            Role::Key => is_text(name, "key"),
            Role::Time => is_text(name, "time"),
            Role::Start => {
                is_text(name, "start") || is_text(name, "call") || is_text(name, "invoke")
            }
            Role::End => {
                is_text(name, "end") || is_text(name, "return") || is_text(name, "response")
            }
            Role::Reply => is_text(name, "reply") || is_text(name, "result"),
        }
    }

    // The place of the role among all roles.
    fn number(self) -> u8
        ensures { result ≡ role_number self }
    {
        self as u8
    }
}

/// A role that a field of this name has, in place of those that have it by default.
#[derive(Clone, Copy, Debug)]
pub struct NamedRole<'a> {
    pub role: Role,
    pub name: &'a [u8],
}

/// Which names the fields have.
#[derive(Clone, Copy, Debug)]
pub struct Layout<'a> {
    pub named: &'a [NamedRole<'a>],
    /// Whether the value is a pair of a key and the value proper.
    pub keyed: bool,
}

impl Layout<'_> {
    /// The value of the first field with a role.
    pub fn find<'a>(&self, fields: &[Field<'a>], role: Role) -> Option<&'a [u8]>
        ensures { option_map (λ value. value.now) result
            ≡ value_of self.now (map field_text fields.now) role }
    {
        for field in fields {
            if self.has_role(field.name, role) {
                return Some(field.value);
            }
        }
        None
    }

    // Whether a field of this name has the role.
    fn has_role(&self, name: &[u8], role: Role) -> bool
        ensures { result ≡ has_role self.now name.now role }
    {
        if is_given(self.named, role) {
            is_given_to(self.named, name, role)
        } else {
            role.is_named(name)
        }
    }
}

// Whether fields are named for the role.
fn is_given(names: &[NamedRole], role: Role) -> bool
    ensures { result ≡ list_any (is_for role) names.now }
{
    for one in names {
        if one.role.number() == role.number() {
            return true;
        }
    }
    false
}

// Whether fields of this name are named for the role.
fn is_given_to(names: &[NamedRole], name: &[u8], role: Role) -> bool
    ensures { result ≡ list_any (is_for_name role name.now) names.now }
{
    for one in names {
        if one.role.number() == role.number() && one.name == name {
            return true;
        }
    }
    false
}
