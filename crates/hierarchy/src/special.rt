//! What invokespecial runs, and where its search begins (JVMS 6.5, invokespecial).

ghost use Rattle.std.specs.Prelude.{◌≡◌};
ghost use Rattle.built_in.specs.declared.class_id.ClassId.TheVariants as class_ids;
ghost use Rattle.hierarchy.specs.MemberLookup.{UpClasses, is_static, key_in, method_with};
ghost use Rattle.hierarchy.specs.Selection.{special, special_start, found_from, is_instance_method};
ghost use Rattle.hierarchy.specs.Selection.{is_init, is_init_name, is_superclass};
ghost use Rattle.hierarchy.specs.steps.MemberKeys.{IsLookup};
ghost use Rattle.hierarchy.specs.steps.Sought.{sought_name};
ghost use Rattle.hierarchy.specs.steps.Specials.{above_static};

use crate::hierarchy::Hierarchy;
use crate::member::{DeclaredMember, Method};
use crate::search::{array_method, built_in_method};
use crate::sought::Sought;
use crate::wanted::Wanted;
use built_in::class_id::ClassId;
use classfile::flags::{STATIC, has_flag};
use loading::given::Superclass;

impl Hierarchy {
    /// The class at which invokespecial, in a class, begins to search for a method that was resolved. It is the class
    /// that the instruction names, or the direct superclass of its own class: where it names a class above its own, no
    /// interface, and the method is no instance initialization method. ACC_SUPER counts as set.
    #[tactic(auto, unfolding(crate::specs::Selection::special_start))]
    pub fn special_start(&self, class: u32, named: ClassId, method: Method) -> ClassId
        ensures { result ≡ special_start self.now.family class named method }
    {
        if self.is_init(method) || !self.has_superclass(class, named) {
            return named;
        }
        match self.superclass(class) {
            Some(Superclass::Given(above)) => ClassId::Given(above),
            Some(Superclass::BuiltIn(above)) => ClassId::BuiltIn(above),
            None => named,
        }
    }

    /// Whether a method is an instance initialization method (JVMS 2.9).
    fn is_init(&self, method: Method) -> bool
        ensures { result ≡ is_init self.now.family method }
    {
        match method {
            Method::BuiltIn(member) => member.name().as_bytes() == b"<init>".as_slice(),
            Method::Given { class, index } => self.is_given_init(class, index),
        }
    }

    /// Whether a method of a given class is an instance initialization method.
    fn is_given_init(&self, class: u32, index: u16) -> bool
        ensures { result ≡ is_init_name (key_in self.now.family class index) }
    {
        match self.name_of(class, index) {
            Some(member) => self.text(member.class, member.name) == b"<init>".as_slice(),
            None => false,
        }
    }

    /// Whether a class, and no interface, is a superclass of a given class.
    fn has_superclass(&self, class: u32, other: ClassId) -> bool
        ensures { result ≡ is_superclass self.now.family class other }
    {
        match other {
            ClassId::Given(other) => self.has_given_superclass(class, other),
            ClassId::BuiltIn(other) => self.is_top_below(class, other),
            ClassId::Array(_) => false,
        }
    }

    /// Whether one given class is a superclass of another. A class is asked of itself for each of its private methods.
    fn has_given_superclass(&self, class: u32, other: u32) -> bool
        ensures { result ≡ is_superclass self.now.family class (class_ids.Given other) }
    {
        let _classes = self.family().classes();
        class != other && !self.family().is_interface(other) && self.is_superclass(class, other)
    }

    /// The method that invokespecial runs for a method that was resolved, where the search begins at a class: the first
    /// instance method of its name and descriptor from the class up, private ones too, and then the one default.
    #[tactic(auto, unfolding(crate::specs::Selection::special))]
    pub fn special(&self, class: ClassId, method: Method) -> Option<Method>
        ensures { result ≡ special self.now.family class method }
    {
        match method {
            Method::BuiltIn(member) => self.special_sought(class, self.sought_built_in(member)),
            Method::Given {
                class: declaring,
                index,
            } => {
                let member = self.name_of(declaring, index)?;
                self.special_sought(class, self.sought(member))
            }
        }
    }

    /// The method of a name and a descriptor that invokespecial runs, where the search begins at a class.
    fn special_sought(&self, class: ClassId, sought: Sought<'_>) -> Option<Method>
        requires { IsLookup self.now.texts (sought_name sought) sought.key }
        ensures { result ≡ found_from is_instance_method self.now.family (sought_name sought.entry) class }
    {
        let _classes = self.family().classes();
        match class {
            ClassId::Given(class) => self.special_in_class(class, sought),
            ClassId::BuiltIn(class) => built_in_method(class, sought),
            ClassId::Array(_) => array_method(sought),
        }
    }

    /// The method of a name and a descriptor that invokespecial runs, where the search begins at a given class.
    fn special_in_class(&self, class: u32, sought: Sought<'_>) -> Option<Method>
        requires { IsLookup self.now.texts (sought_name sought) sought.key }
        ensures { result ≡ found_from is_instance_method self.now.family (sought_name sought.entry)
            (class_ids.Given class) }
    {
        let _classes = self.family().classes();
        if let Some(method) = self.up_instances(Superclass::Given(class), sought) {
            return Some(method);
        }
        let DeclaredMember { class, index } = self.the_default(class, sought.key)?;
        Some(Method::Given { class, index })
    }

    /// The first instance method from a class up. The nearest method is one but where it is static; then the search
    /// goes on above its class.
    fn up_instances(&self, from: Superclass, sought: Sought<'_>) -> Option<Method>
        requires { IsLookup self.now.texts (sought_name sought) sought.key }
        ensures { UpClasses self.now.family
            (method_with is_instance_method self.now.family (sought_name sought.entry)) (sought_name sought.entry)
            from result }
    {
        let _classes = self.family().classes();
        let mut at = from;
        loop {
            let found = self.up_classes(Wanted::Method, at, sought);
            let Some(above) = self.above_static(found) else {
                return found;
            };
            at = above;
        }
    }

    /// What stands above the class of a static method.
    fn above_static(&self, found: Option<Method>) -> Option<Superclass>
        ensures { result ≡ above_static self.now.family found }
    {
        match found {
            Some(Method::Given { class, index }) if is_static(self.flags(class, index)) => {
                self.superclass(class)
            }
            _ => None,
        }
    }
}

/// Whether a method of these flags is static.
fn is_static(flags: u16) -> bool
    ensures { result ≡ is_static flags }
{
    has_flag(flags, STATIC)
}
