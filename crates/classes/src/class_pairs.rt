// The two classes of a type: merged eightbyte by eightbyte, and cleaned up after merging (document 01, "Classes of aggregates").
ghost use Rattle.std.specs.Prelude.{◌≡◌, [], ◌∷◌};
ghost use Rattle.classes.specs.Classes.{merge_all};
ghost use Rattle.classes.specs.CleanUp.{any_memory, up_alone, settled, clean_up};

use crate::Class;

// Merges two arrays of classes, member by member.
#[tactic(auto, unfolding(crate::specs::Classes::merge_all))]
pub fn merge_both(a: [Class; 2], b: [Class; 2]) -> [Class; 2]
    ensures { result ≡ merge_all a b }
{
    [a[0].merged(b[0]), a[1].merged(b[1])]
}

// Whether one of two classes is MEMORY.
#[tactic(auto, unfolding(crate::specs::Classes::same))]
fn any_memory(first: Class, second: Class) -> bool
    ensures { result ≡ any_memory (first ∷ second ∷ []) }
{
    first == Class::Memory || second == Class::Memory
}

// Whether `class` is an X87UP that X87 does not precede.
#[tactic(auto, unfolding(crate::specs::Classes::same, crate::specs::CleanUp::up_alone))]
fn up_alone(before: Class, class: Class) -> bool
    ensures { result ≡ up_alone before class }
{
    class == Class::X87Up && before != Class::X87
}

// "SSEUP not preceded by SSE or SSEUP becomes SSE".
#[tactic(auto, unfolding(crate::specs::Classes::same, crate::specs::CleanUp::settled))]
fn settled(before: Class, class: Class) -> Class
    ensures { result ≡ settled before class }
{
    match (before, class) {
        (Class::Sse | Class::SseUp, Class::SseUp) => class,
        (_, Class::SseUp) => Class::Sse,
        _ => class,
    }
}

// What is done after merging, in the paper's order.
#[tactic(auto, unfolding(crate::specs::CleanUp::clean_up))]
pub fn clean_up(classes: [Class; 2]) -> [Class; 2]
    ensures { result ≡ clean_up classes }
{
    let [first, second] = classes;
    // "any MEMORY makes the whole MEMORY"
    if any_memory(first, second) {
        return [Class::Memory, Class::NoClass];
    }
    // "X87UP not preceded by X87 makes the whole MEMORY"
    if up_alone(Class::NoClass, first) || up_alone(first, second) {
        return [Class::Memory, Class::NoClass];
    }
    [settled(Class::NoClass, first), settled(first, second)]
}
