ghost use Rattle.std.specs.Prelude.{◌≡◌, ◌<◌, length, position, option_map, IfSome};
ghost use Rattle.std.specs.List.{slice_get, slice_set};
ghost use Rattle.qs_graph.specs.declared.export.Export.{Export as Standing};
ghost use Rattle.qs_graph.specs.Exports.{clients_of, clients_counted, export_at, first_against, found_at, has_alike, has_name, is_standing, is_vacant, standing};

use crate::export::{Export, is_same};
use qs_bytes::Name;

/// How many exports can stand.
pub const PLACES: usize = 64;

fn has_name(place: &Option<Export>, name: &Name) -> bool
    ensures { result ≡ has_name name.now place.now }
{
    match place {
        Some(export) => is_same(&export.name, name),
        None => false,
    }
}

fn has_alike(place: &Option<Export>, id: &Name, name: &Name) -> bool
    ensures { result ≡ has_alike id.now name.now place.now }
{
    match place {
        Some(export) => export.is_alike(id, name),
        None => false,
    }
}

/// The lowest free place.
pub fn first_vacant(places: &[Option<Export>]) -> Option<usize>
    ensures first { result ≡ position is_vacant places.now }
    ensures inside { IfSome result (λ e. e < length places.now) }
{
    places.iter().position(|place| place.is_none())
}

/// The lowest place of an export with that id or that name.
pub fn first_alike(places: &[Option<Export>], id: &Name, name: &Name) -> Option<usize>
    ensures first { result ≡ position (has_alike id.now name.now) places.now }
    ensures inside { IfSome result (λ e. e < length places.now) }
{
    places.iter().position(|place| has_alike(place, id, name))
}

fn first_standing(places: &[Option<Export>]) -> Option<usize>
    ensures first { result ≡ position is_standing places.now }
    ensures inside { IfSome result (λ e. e < length places.now) }
{
    places.iter().position(|place| place.is_some())
}

fn first_named(places: &[Option<Export>], name: &Name) -> Option<usize>
    ensures first { result ≡ position (has_name name.now) places.now }
    ensures inside { IfSome result (λ e. e < length places.now) }
{
    places.iter().position(|place| has_name(place, name))
}

/// The place of the export that a name means; the empty name means the one that was made first.
pub fn find(places: &[Option<Export>], name: &Name) -> Option<usize>
    ensures found { result ≡ found_at places.now name.now }
    ensures inside { IfSome result (λ e. e < length places.now) }
{
    match name.as_slice() {
        [] => first_standing(places),
        _ => first_named(places, name),
    }
}

/// The first standing export that a new one conflicts with.
pub fn first_against(places: &[Option<Export>], new: &Export) -> Option<Export>
    ensures { result ≡ first_against places.now new.now }
{
    places
        .iter()
        .filter_map(|place| *place)
        .find(|export| new.conflicts(export))
}

/// The standing export of this number in the order of making, from 0 on.
pub fn nth_standing(places: &[Option<Export>], number: usize) -> Option<Export>
    ensures { result ≡ slice_get (standing places.now) number }
{
    let mut left = number;
    for place in places {
        match place {
            Some(export) if left == 0 => return Some(*export),
            Some(_) => left -= 1,
            None => {}
        }
    }
    None
}

fn with_clients(place: &Option<Export>, clients: u16) -> Option<Export>
    ensures { result ≡ clients_counted place.now clients }
{
    match place {
        Some(export) => Some(Export { clients, ..*export }),
        None => None,
    }
}

/// How many clients the export at a place has; none where no export stands.
pub fn clients(places: &[Option<Export>], e: usize) -> u16
    ensures { result ≡ clients_of (export_at places.now e) }
{
    match places.get(e) {
        Some(Some(export)) => export.clients,
        _ => 0,
    }
}

/// The export at place `e` has so many clients from now on.
pub fn set_clients(places: &mut [Option<Export>], e: usize, clients: u16)
    requires { e < length places.old }
    ensures { places.new ≡ slice_set places.old e (clients_counted (export_at places.old e) clients) }
{
    places[e] = with_clients(&places[e], clients);
}

/// Whether clients of the export at a place may write; `None` where no export stands.
pub fn writable(places: &[Option<Export>], e: usize) -> Option<bool>
    ensures { result ≡ option_map (λ (x : Standing). x.writable) (export_at places.now e) }
{
    match places.get(e) {
        Some(Some(export)) => Some(export.writable),
        _ => None,
    }
}
