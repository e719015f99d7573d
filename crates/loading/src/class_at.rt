//! The classes of a family by number.

ghost use Rattle.std.specs.Prelude.{◌≡◌, ℕ, ◌<◌, length, Some, option_copied};
ghost use Rattle.std.specs.List.{All};
ghost use Rattle.loading.specs.Families.{file_in, superclass_in, interfaces_in, is_interface_in};

use crate::family::Family;
use crate::given::Superclass;
use crate::names::is_interface;
use classfile::ClassFile;

impl Family {
    /// The class file of a class, if there is a class of this number.
    pub fn file(&self, class: u32) -> Option<&ClassFile>
        ensures { option_copied result ≡ file_in self.now class }
    {
        let class = self.classes().get(class as usize)?;
        Some(&class.file)
    }

    /// The superclass of a class, if there is a class of this number.
    pub fn superclass(&self, class: u32) -> Option<Superclass>
        ensures value { result ≡ superclass_in self.now class }
        ensures within { (d : ℕ) → result ≡ Some (Superclass.Given d) → d < length self.now }
    {
        let class = self.classes().get(class as usize)?;
        Some(class.superclass)
    }

    /// The direct superinterfaces of a class, in the file's order. None for a number of no class.
    pub fn interfaces(&self, class: u32) -> &[u32]
        ensures value { result.now ≡ interfaces_in self.now class }
        ensures within { All (λ i. i < length self.now) result.now }
    {
        match self.classes().get(class as usize) {
            Some(class) => class.interfaces.as_slice(),
            None => &[],
        }
    }

    /// Whether a class is an interface (JVMS 4.1).
    pub fn is_interface(&self, class: u32) -> bool
        ensures { result ≡ is_interface_in self.now class }
    {
        match self.file(class) {
            Some(file) => is_interface(file),
            None => false,
        }
    }
}
