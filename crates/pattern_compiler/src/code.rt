//! Pattern code, shared.

ghost use Rattle.std.specs.Prelude.{◌≡◌, ◌<◌, ◌^◌, ◌++◌, ◌∷◌, [], IfOk, IfSome, OnOk, length, map};
ghost use Rattle.std.specs.Prelude.{slice_get, option_map, true};
ghost use Rattle.pattern_compiler.specs.View.{instr_of, code_of, shared_code};

use crate::instr::Instr;
use crate::pattern::Pattern;
use std::alloc::{AllocError, Global};
use std::marker::Model;
use std::rc::Rc;

/// Code of a pattern, which its clones share and which never changes. Code without an instruction takes no memory.
pub struct PatCode {
    shared: Option<Rc<Vec<Instr>>>,
}

impl Drop for PatCode {
    fn drop(self) {
        let PatCode { shared: _ } = self;
    }
}

impl Model for PatCode {
    ghost use Rattle.model.specs.Pattern.Steps.{Code};
    ghost use Rattle.pattern_compiler.specs.View.{shared_code};

    ghost Value = { Code };

    ghost view = { λ c. shared_code c.shared };
}

impl PatCode {
    /// Code without an instruction. Takes no memory.
    pub fn null() -> PatCode
        ensures { result ≡ [] }
    {
        PatCode { shared: None }
    }

    /// The code of these instructions.
    pub fn from_list(instrs: Vec<Instr>) -> Result<PatCode, AllocError>
        ensures { IfOk result (λ code. code ≡ code_of instrs.items) }
    {
        let shared = Rc::new(*instrs.allocator(), instrs)?;
        Ok(PatCode {
            shared: Some(shared),
        })
    }

    /// The code of instructions that something else may hold. Takes no memory.
    #[inline(always)]
    pub(crate) fn shared(instrs: Rc<Vec<Instr>>) -> PatCode
        ensures { result ≡ code_of instrs.value.items }
    {
        PatCode {
            shared: Some(instrs),
        }
    }

    /// The memory of its instructions, if it takes some.
    #[inline(always)]
    pub(crate) fn into_shared(self) -> Option<Rc<Vec<Instr>>>
        ensures { shared_code result ≡ self }
    {
        let PatCode { shared } = self;
        shared
    }

    /// The instructions in order.
    #[inline(always)]
    pub fn as_slice(&self) -> &[Instr]
        ensures { code_of result.now ≡ self.now }
    {
        match &self.shared {
            Some(shared) => shared.as_ref().as_slice(),
            None => &[],
        }
    }

    /// The instructions, copied only if other code shares them, and then with room for so many more.
    pub(crate) fn into_list(self, alloc: Global, room: usize) -> Result<Vec<Instr>, AllocError>
        requires { room < 2 ^ 63 }
        ensures { IfOk result (λ instrs. code_of instrs.items ≡ self) }
    {
        let PatCode { shared } = self;
        let Some(shared) = shared else {
            return Ok(Vec::with_capacity(alloc, room)?);
        };
        match Rc::try_unwrap(shared) {
            Ok(instrs) => Ok(instrs),
            Err(shared) => {
                let items = shared.as_ref().as_slice();
                let mut instrs = Vec::with_capacity(alloc, items.len() + room)?;
                put(&mut instrs, items)?;
                Ok(instrs)
            }
        }
    }

    /// The code with an instruction before it, in the same memory where nothing else shares it.
    pub(crate) fn led_by(self, alloc: Global, first: Instr) -> Result<PatCode, AllocError>
        ensures { IfOk result (λ code. code ≡ instr_of first ∷ self) }
    {
        let mut code = self;
        if let Some(shared) = &mut code.shared {
            if let Some(instrs) = Rc::get_mut(shared) {
                instrs.insert(0, first)?;
                return Ok(code);
            }
        }
        code.led_anew(alloc, first)
    }

    // The code with an instruction before it, in new memory.
    #[inline(never)]
    fn led_anew(self, alloc: Global, first: Instr) -> Result<PatCode, AllocError>
        ensures { IfOk result (λ code. code ≡ instr_of first ∷ self) }
    {
        let mut instrs = self.into_list(alloc, 2)?;
        instrs.insert(0, first)?;
        PatCode::from_list(instrs)
    }

    /// The code and then a pattern, in the same memory where nothing else shares it.
    pub(crate) fn followed_by(self, alloc: Global, part: Pattern) -> Result<PatCode, AllocError>
        ensures { IfOk result (λ code. code ≡ self ++ part) }
    {
        let mut code = self;
        if let Some(shared) = &mut code.shared {
            if let Some(instrs) = Rc::get_mut(shared) {
                part.put_in(instrs)?;
                return Ok(code);
            }
        }
        code.followed_anew(alloc, part)
    }

    // The code and then a pattern, in new memory.
    #[inline(never)]
    fn followed_anew(self, alloc: Global, part: Pattern) -> Result<PatCode, AllocError>
        ensures { IfOk result (λ code. code ≡ self ++ part) }
    {
        let mut instrs = self.into_list(alloc, part.room())?;
        part.put_in(&mut instrs)?;
        PatCode::from_list(instrs)
    }

    /// The code between two instructions, in the same memory where nothing else shares it.
    #[inline(never)]
    pub(crate) fn between(
        self,
        alloc: Global,
        first: Instr,
        last: Instr,
    ) -> Result<PatCode, AllocError>
        ensures { IfOk result (λ code. code ≡ instr_of first ∷ (self ++ instr_of last ∷ [])) }
    {
        let mut code = self;
        if let Some(shared) = &mut code.shared {
            if let Some(instrs) = Rc::get_mut(shared) {
                instrs.insert(0, first)?;
                instrs.push(last)?;
                return Ok(code);
            }
        }
        let mut instrs = code.into_list(alloc, 2)?;
        instrs.insert(0, first)?;
        instrs.push(last)?;
        PatCode::from_list(instrs)
    }

    /// Puts the instructions at the end, copied only if other code shares them.
    pub(crate) fn put_in(self, instrs: &mut Vec<Instr>) -> Result<(), AllocError>
        ensures { OnOk result
            (code_of instrs.new.items ≡ code_of instrs.old.items ++ self) }
    {
        let PatCode { shared } = self;
        let Some(shared) = shared else {
            return Ok(());
        };
        match Rc::try_unwrap(shared) {
            Ok(items) => {
                let mut items = items;
                instrs.append(&mut items)
            }
            Err(shared) => put(instrs, shared.as_ref().as_slice()),
        }
    }

    /// The only instruction, if there is just one.
    #[inline(always)]
    pub(crate) fn only(&self) -> Option<&Instr>
        ensures { IfSome result (λ i. self.now ≡ instr_of i.now ∷ []) }
    {
        match self.as_slice() {
            [only] => Some(only),
            _ => None,
        }
    }

    /// Becomes the code of this instruction, if it is that of one which nothing else holds; whether it does.
    #[inline(always)]
    pub(crate) fn replace_only(&mut self, instr: Instr) -> bool
        ensures made { result ≡ true → self.new ≡ instr_of instr ∷ [] }
    {
        let Some(shared) = &mut self.shared else {
            return false;
        };
        let Some(instrs) = Rc::get_mut(shared) else {
            return false;
        };
        if instrs.len() != 1 {
            return false;
        }
        instrs[0] = instr;
        true
    }

    /// How many instructions there are.
    pub fn len(&self) -> usize
        ensures { result ≡ length self.now }
    {
        match &self.shared {
            Some(shared) => shared.as_ref().as_slice().len(),
            None => 0,
        }
    }

    /// The instruction at a place. Takes no memory.
    pub fn get(&self, place: usize) -> Option<&Instr>
        ensures { option_map (λ i. instr_of i.now) result ≡ slice_get self.now place }
    {
        match &self.shared {
            Some(shared) => shared.as_ref().as_slice().get(place),
            None => None,
        }
    }
}

/// Puts copies of the instructions at the end.
pub(crate) fn put(instrs: &mut Vec<Instr>, part: &[Instr]) -> Result<(), AllocError>
    ensures { OnOk result
        (code_of instrs.new.items ≡ code_of instrs.old.items ++ code_of part.now) }
{
    for instr in part {
        instrs.push(instr.clone()?)?;
    }
    Ok(())
}

impl Clone for PatCode {
    ghost is_clone = { λ code copy. copy ≡ code };

    fn clone(&self) -> Result<PatCode, AllocError> {
        let shared = match &self.shared {
            Some(shared) => Some(shared.clone()?),
            None => None,
        };
        Ok(PatCode { shared })
    }
}
