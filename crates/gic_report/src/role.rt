//! The words for what elements are.
ghost use Rattle.std.specs.Prelude.{◌≡◌, ◌≤◌, length};
ghost use Rattle.gic_report.specs.RoleWord.{role_word};

use gic_model::Role;

/// How the report names what an element is.
pub fn role_word(role: Role) -> &'static str
    ensures word { result.now ≡ role_word role }
    ensures size { length result.now ≤ 7 }
{
    match role {
        Role::Ground => "ground",
        Role::Line => "line",
        Role::High => "high",
        Role::Low => "low",
        Role::Series => "series",
        Role::Common => "common",
        Role::Third => "third",
        Role::Neutral => "neutral",
    }
}
