// Residue names and elements through C conventions. A name is packed of its first eight bytes.
ghost use Rattle.std.specs.Prelude.{◌≡◌};
ghost use Rattle.names.specs.Elements.{element_of, symbol_of};
ghost use Rattle.names.specs.Packing.{packed};
ghost use Rattle.names.specs.Table.{resolve_of};
ghost use Rattle.probe_fields.specs.Names.{code_of, canonical_of};

// The standard residue's code, 0 where the name is not resolved; the canonical name, packed.
#[unsafe(no_mangle)]
pub extern "C" fn probe_resolve(name: &[u8], canonical_name: &mut u64) -> u8
    ensures { (result ≡ code_of (resolve_of (packed name.now))) × (canonical_name.new ≡ canonical_of (resolve_of (packed name.now))) }
{
    match names::resolve(names::pack(name)) {
        Some(found) => {
            *canonical_name = found.name;
            found.residue.code()
        }
        None => {
            *canonical_name = 0;
            0
        }
    }
}

// The element's number, 0 where the symbol is none.
#[unsafe(no_mangle)]
pub extern "C" fn probe_element(symbol: &[u8]) -> u8
    ensures { result ≡ element_of symbol.now }
{
    names::element_of(symbol)
}

// The element's symbol, packed.
#[unsafe(no_mangle)]
pub extern "C" fn probe_symbol(element: u8) -> u64
    ensures { result ≡ symbol_of element }
{
    names::symbol_of(element)
}
