// What a residue is by its name: the name that it leads to, its standard code and its category.
ghost use Rattle.std.specs.Prelude.{◌≡◌};
ghost use Rattle.model.specs.Classes.{other_category, class_by, class_of};

use names::{ResidueCategory, Resolved};

#[derive(Clone, Copy)]
pub struct Class {
    pub name: u64,
    // The numbers of the standard residue, 0 where it is none, and of the category, as C's slices have them.
    pub code: u8,
    pub category: u8,
}

fn other_category(lone: bool) -> ResidueCategory
    ensures { result ≡ other_category lone }
{
    if lone {
        ResidueCategory::Ion
    } else {
        ResidueCategory::Hetero
    }
}

fn class_by(resolved: Option<Resolved>, name: u64, lone: bool) -> Class
    ensures { result ≡ class_by resolved name lone }
{
    match resolved {
        Some(to) => Class {
            name: to.name,
            code: to.residue.code(),
            category: ResidueCategory::Standard.code(),
        },
        None => Class {
            name,
            code: 0,
            category: other_category(lone).code(),
        },
    }
}

// What `determine_category` says of a residue that is not refused; `lone` tells whether it has one distinct atom.
pub fn class_of(name: u64, lone: bool) -> Class
    ensures { result ≡ class_of name lone }
{
    class_by(names::resolve(name), name, lone)
}
