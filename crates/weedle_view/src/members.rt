//! The members of a definition.

ghost use Rattle.std.specs.Prelude.{◌≡◌, IfOk, map};
ghost use Rattle.weedle_view.specs.Members.{
  dictionary_member_view,
  interface_member_view,
  members_of_definition,
  mixin_member_view,
  namespace_member_view,
  seen,
};

use crate::member::MemberView;
use std::alloc::{AllocError, Global};
use weedle_idl::Definition;
use weedle_idl::dictionary::DictionaryMember;
use weedle_idl::interface::InterfaceMember;
use weedle_idl::mixin::MixinMember;
use weedle_idl::namespace::NamespaceMember;

/// The views of a definition's members, in their order: of an interface, a callback interface, a
/// mixin, a namespace or a dictionary, or a part of one; none of any other definition.
///
/// It takes memory for the list, by one request, and fails where that is refused.
///
/// ```rust
/// use weedle_base::Parse;
/// use weedle_idl::Definition;
/// use weedle_view::{MemberKind, members_of};
///
/// let text = "partial interface A { const long X = 5; long f(); stringifier; };";
/// let (_, definition) = Definition::parse(rt.alloc(), text).expect(rt, "definition");
/// let views = members_of(rt.alloc(), &definition)?;
/// assert!(rt; views.len() == 3 && views[1].identifier.is_some_and(|name| name.0 == "f"));
/// assert!(rt; views[0].kind == MemberKind::Const && views[2].kind == MemberKind::Stringifier);
/// ```
pub fn members_of<'v, 'a>(
    alloc: Global,
    definition: &'v Definition<'a>,
) -> Result<Vec<MemberView<'v, 'a>>, AllocError>
    ensures { IfOk result
        (λ views. map seen views.items ≡ members_of_definition definition.entry.now) }
{
    match definition {
        Definition::CallbackInterface(interface) => of_interface(alloc, &interface.members.body),
        Definition::Interface(interface) => of_interface(alloc, &interface.members.body),
        Definition::InterfaceMixin(mixin) => of_mixin(alloc, &mixin.members.body),
        Definition::Namespace(namespace) => of_namespace(alloc, &namespace.members.body),
        Definition::Dictionary(dictionary) => of_dictionary(alloc, &dictionary.members.body),
        Definition::PartialInterface(interface) => of_interface(alloc, &interface.members.body),
        Definition::PartialInterfaceMixin(mixin) => of_mixin(alloc, &mixin.members.body),
        Definition::PartialDictionary(dictionary) => of_dictionary(alloc, &dictionary.members.body),
        Definition::PartialNamespace(namespace) => of_namespace(alloc, &namespace.members.body),
        Definition::Callback(_)
        | Definition::Enum(_)
        | Definition::Typedef(_)
        | Definition::IncludesStatement(_)
        | Definition::Implements(_) => Ok(Vec::new(alloc)),
    }
}

/// The views of members of an interface.
#[tactic(auto, using(crate::proofs::Finds::viewed))]
fn of_interface<'v, 'a>(
    alloc: Global,
    members: &'v Vec<InterfaceMember<'a>>,
) -> Result<Vec<MemberView<'v, 'a>>, AllocError>
    ensures { IfOk result
        (λ views. map seen views.items ≡ map interface_member_view members.entry.now.items) }
{
    let mut views = Vec::with_capacity(alloc, members.len())?;
    for member in members {
        views.push(MemberView::of_interface(member))?;
    }
    Ok(views)
}

/// The views of members of a mixin.
#[tactic(auto, using(crate::proofs::Finds::viewed))]
fn of_mixin<'v, 'a>(
    alloc: Global,
    members: &'v Vec<MixinMember<'a>>,
) -> Result<Vec<MemberView<'v, 'a>>, AllocError>
    ensures { IfOk result
        (λ views. map seen views.items ≡ map mixin_member_view members.entry.now.items) }
{
    let mut views = Vec::with_capacity(alloc, members.len())?;
    for member in members {
        views.push(MemberView::of_mixin(member))?;
    }
    Ok(views)
}

/// The views of members of a namespace.
#[tactic(auto, using(crate::proofs::Finds::viewed))]
fn of_namespace<'v, 'a>(
    alloc: Global,
    members: &'v Vec<NamespaceMember<'a>>,
) -> Result<Vec<MemberView<'v, 'a>>, AllocError>
    ensures { IfOk result
        (λ views. map seen views.items ≡ map namespace_member_view members.entry.now.items) }
{
    let mut views = Vec::with_capacity(alloc, members.len())?;
    for member in members {
        views.push(MemberView::of_namespace(member))?;
    }
    Ok(views)
}

/// The views of members of a dictionary.
#[tactic(auto, using(crate::proofs::Finds::viewed))]
fn of_dictionary<'v, 'a>(
    alloc: Global,
    members: &'v Vec<DictionaryMember<'a>>,
) -> Result<Vec<MemberView<'v, 'a>>, AllocError>
    ensures { IfOk result
        (λ views. map seen views.items ≡ map dictionary_member_view members.entry.now.items) }
{
    let mut views = Vec::with_capacity(alloc, members.len())?;
    for member in members {
        views.push(MemberView::of_dictionary(member))?;
    }
    Ok(views)
}
