// The actions of the service, by their names.
ghost use Rattle.std.specs.Prelude.{◌≡◌, Some};
ghost use Rattle.sdb_action.specs.Actions.{action_named, action_of, action_text};

use sdb_base::Params;
use sdb_tables::Refusal;

/// The ten actions of the service.
#[derive(Debug, Clone, Copy, Drop, PartialEq, Eq)]
pub enum Action {
    CreateDomain,
    DeleteDomain,
    ListDomains,
    DomainMetadata,
    PutAttributes,
    BatchPutAttributes,
    GetAttributes,
    DeleteAttributes,
    BatchDeleteAttributes,
    Select,
}

const ACTIONS: [Action; 10] = [
    Action::CreateDomain,
    Action::DeleteDomain,
    Action::ListDomains,
    Action::DomainMetadata,
    Action::PutAttributes,
    Action::BatchPutAttributes,
    Action::GetAttributes,
    Action::DeleteAttributes,
    Action::BatchDeleteAttributes,
    Action::Select,
];

impl Action {
    /// The action's name, as the parameter `Action` has it and as the elements of its answer begin.
    #[tactic(auto, unfolding(crate::specs::Actions::action_text, crate::specs::Actions::action_named))]
    pub fn name(self) -> &'static str
        ensures text { result.now ≡ action_text self }
        ensures named { action_named result.now ≡ Some self }
    {
        match self {
            Action::CreateDomain => "CreateDomain",
            Action::DeleteDomain => "DeleteDomain",
            Action::ListDomains => "ListDomains",
            Action::DomainMetadata => "DomainMetadata",
            Action::PutAttributes => "PutAttributes",
            Action::BatchPutAttributes => "BatchPutAttributes",
            Action::GetAttributes => "GetAttributes",
            Action::DeleteAttributes => "DeleteAttributes",
            Action::BatchDeleteAttributes => "BatchDeleteAttributes",
            Action::Select => "Select",
        }
    }
}

#[tactic(auto, unfolding(crate::specs::Actions::action_named))]
fn action_named(name: &str) -> Option<Action>
    ensures { result ≡ action_named name.now }
{
    ACTIONS.iter().copied().find(|action| name == action.name())
}

/// The action that the parameter `Action` names (SimpleDB Developer Guide, "API Reference").
///
/// # Errors
///
/// `MissingParameter` where there is no such parameter, `InvalidAction` where it names none of the ten.
pub fn read_action(params: &Params) -> Result<Action, Refusal>
    ensures { result ≡ action_of params.now }
{
    let Some(name) = params.get("Action") else {
        return Err(Refusal::MissingParameter);
    };
    action_named(name.as_str()).ok_or(Refusal::InvalidAction)
}
