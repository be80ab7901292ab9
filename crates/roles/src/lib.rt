// Who may do what: which role may do which job, and the test that stands before each.
#![tactic(auto)]

ghost use Rattle.std.specs.Prelude.{◌≡◌};
ghost use Rattle.answers.specs.Reasons.{status_of};
ghost use Rattle.roles.specs.Roles.{behind_role};
ghost use Rattle.roles.specs.Table.{RoleRead};

use answers::Reason;

// The jobs, in document 02's order.
#[derive(Clone, Copy, Debug, PartialEq, Eq)]
pub enum Job {
    Convert,
    // put back
    Restore,
    Explain,
    Price,
    // edit the table
    Edit,
}

// The roles, in document 02's order: C passes 0, 1 and 2.
#[derive(Clone, Copy, Debug, PartialEq, Eq)]
pub enum Role {
    Draughtswoman,
    Mender,
    Minder,
}

// The role of a number; 13 above 2.
impl TryFrom<u32> for Role {
    type Error = Reason;

    ghost try_from_gives = { λ number role. RoleRead number role };

    fn try_from(number: u32) -> Result<Role, Reason> {
        match number {
            0 => Ok(Role::Draughtswoman),
            1 => Ok(Role::Mender),
            2 => Ok(Role::Minder),
            _ => Err(Reason::Role),
        }
    }
}

// Which role may do which job: a row for each role, a column for each job.
const PERMITTED: [[bool; 5]; 3] = [
    [true, true, true, true, true],
    [true, true, true, true, false],
    [true, false, true, false, false],
];

// 13 where the role may not do the job. The role is the number that C passes.
pub fn check_role(role: u32, job: Job) -> Result<(), Reason>
    ensures { status_of result ≡ behind_role role job 0 }
{
    let role = Role::try_from(role)?;
    if PERMITTED[role as usize][job as usize] {
        Ok(())
    } else {
        Err(Reason::Role)
    }
}
